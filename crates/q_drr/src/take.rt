ghost use Rattle.std.specs.Prelude.{◌≡◌, ◌<◌, ◌≤◌, All, length, IfSome};
ghost use Rattle.q_drr.specs.Take.{met, served, head_at};

use crate::active::{Active, Turn};
use crate::round::Round;

/// What a whole take met.
#[derive(Clone, Copy, PartialEq, Eq, Debug)]
pub struct Met {
    /// The class whose head is sent, or whose child shows nothing.
    pub class: u16,
    /// The length of the head that it sends.
    pub head: Option<u16>,
}

/// Gives turns until a class sends its head, or a class is in front that shows nothing: what a drr does at one take.
/// `heads` has what each class shows, by its name.
///
/// Returns `None` if no class is active. The contract says directly which class is met and what each is granted.
pub fn take_by_turns(active: &mut Active, heads: &[Option<u16>]) -> Option<Met>
    requires named { All (λ e. e.class < length heads.now) active.old.active }
    requires in_range { All (λ head. IfSome head (λ len. len ≤ active.old.max_len)) heads.now }
    ensures met { result ≡ met (head_at heads.now) active.old }
    ensures after { active.new ≡ served (head_at heads.now) active.old }
{
    let mut round = Round::new();
    while let Some(class) = active.front() {
        let Some(len) = heads[class as usize] else {
            return Some(Met { class, head: None });
        };
        match round.turn(active, len) {
            Turn::Send => {
                return Some(Met {
                    class,
                    head: Some(len),
                });
            }
            Turn::Granted => {}
        }
    }
    None
}
