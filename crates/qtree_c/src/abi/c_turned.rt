ghost use Rattle.std.specs.Prelude.{◌≡◌, ◌-◌, ◌^◌, unwrap_or};

use q_packet::Moment;

/// What a turn did, and when to take the next one, as C has it. The greatest number stands for never.
#[repr(C)]
#[derive(Clone, Copy, Drop)]
pub struct CTurned {
    pub sent: usize,
    pub lost: usize,
    pub again: u64,
}

impl CTurned {
    /// A turn that did so much.
    #[inline(always)]
    pub fn of(sent: usize, lost: usize, again: Option<Moment>) -> CTurned
        ensures { result ≡ record { sent = sent; lost = lost; again = unwrap_or again (2 ^ 64 - 1) } }
    {
        let again = match again {
            Some(at) => at.ns(),
            None => u64::MAX,
        };
        CTurned { sent, lost, again }
    }
}
