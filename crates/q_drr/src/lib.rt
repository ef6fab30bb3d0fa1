//! The active list of deficit round robin: which class has its turn, and what each may send. It has lengths and class names only;
//! packets and queues are the caller's.
//!
//! - [`Active`] has the classes with their quanta. [`Active::add`] and [`Active::remove`] change them,
//!   [`Active::set_quantum`] changes a quantum; [`Active::quantum`] shows it. [`Active::has`] says whether a class is
//!   there, [`Active::place_of`] at which place in order of adding, and [`Active::count`] how many there are.
//! - [`Active::wake`] makes a class active, at the end of the list, and [`Active::sleep`] makes it inactive. [`Active::is_active`]
//!   says which it is. [`Active::front`] is the class whose turn it is. [`Active::wake_at`], [`Active::sleep_at`] and
//!   [`Active::front_place`] do the same by a class's place.
//! - [`Active::turn`] is one turn of that class: a [`Turn`], `Send` or `Granted`. [`Active::deficit`],
//!   [`Active::granted`] and [`Active::turns`] show what came of it.
//! - [`laws`] states what holds over every list of turns, of every take, and after every change.
//!
//! ```
//! // The caller sends from the class in front until its turn is over; a class whose queue is empty becomes inactive.
//! while let Some(class) = active.front() {
//!     match active.turn(head_len_of(class)) {
//!         Turn::Send => send_one_of(class),
//!         Turn::Granted => {}
//!     }
//!     if is_empty(class) {
//!         active.sleep(class);
//!     }
//! }
//! ```
//!
//! Each contract says what a call makes of a plain list of classes, and of those active their place, deficit and grants
//! (`specs/Schedule.antt`). That no two classes have one name, that no class is twice in the list and that every deficit is
//! below a quantum and a longest packet is `IsLawful`, which [`Active::front`], [`Active::front_place`], [`Active::has`],
//! [`Active::place_of`], [`Active::class_at`] and [`Active::count`] ensure of every list. [`laws::take_by_turns`] carries the whole take
//! (`specs/Take.antt`): the class met by the least number of grants, what each class is granted until then, and that the
//! turns end.
//!
//! [`laws`] carries the shares: [`laws::each_sends_its_share`], [`laws::grants_are_even`] and [`laws::shares_are_fair`], over
//! every list of turns (`specs/Stretch.antt`); [`laws::grants_are_counted`] says what [`Active::granted`] and
//! [`Active::turns`] count over it. These laws reach takes by [`laws::takes_are_turns`]; [`laws::least_need_is_met`] says
//! which class a take meets, and [`laws::grants_come_where_short`] that no class is granted whose deficit covers its head
//! (`specs/Turns.antt`). [`laws::changes_stay_lawful`] says of each change that it keeps `IsLawful` (`specs/Changes.antt`).
//!
//! Only [`Active::add`] allocates, as much for a class with a large number as for one with a small one. But for it,
//! [`Active::remove`], [`Active::deficits_ahead`] and [`Active::grant_rounds`] each call takes the same few steps however many
//! classes there are: a map in order of adding has what is kept of a class at its place, and links lead from the place of each
//! active class to its neighbours. A name is hashed only by a call that has a name as its argument: a turn, and the calls by
//! place, hash nothing.
//!
//! [`Round`] keeps a take short where quanta are small: once every active class was granted and none may send,
//! [`Active::grant_rounds`] gives the rounds that follow, in which every class is granted too, at once. So a take turns a few rounds
//! and passes over the list once, however many rounds of single turns it stands for; [`Active::turns`] counts those.
#![tactic(auto)]

mod active;
mod class_table;
pub mod laws;
mod ring;
mod round;
mod take;

pub use active::{Active, Turn};
pub use round::Round;
