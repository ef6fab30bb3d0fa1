//! FQ-CoDel: flows that share a link by quanta, each managed by CoDel (RFC 8290, tc-fq_codel(8)).
//!
//! - [`Settings`] are the settings, each within its range: `Settings::new(..) -> Option<Settings>`, `Settings::defaults(mtu)`.
//! - [`FqCodel::new`] allocates all memory of flows and lists, [`FqCodel::reserve`] a place for one packet. No other call
//!   allocates.
//! - [`FqCodel::put`] puts a packet into its flow, `hash mod flows`. Past the limit the flow with the most bytes loses a batch
//!   from its front; the result says whether the packet that was put is itself lost.
//! - [`FqCodel::take`] returns the next packet to send, with CoDel's drops and marks.
//! - [`FqCodel::put_from`] and [`FqCodel::take_into`] do the same with a packet that is read or written in the caller's
//!   memory, so that it is copied once. [`Sent`] says what a take did, and [`FqCodel::fits`] beforehand that a put loses nothing.
//! - [`FqCodel::pass_into`] and [`FqCodel::take_late_into`] are the two parts of a take: the usual one, where CoDel lets the packet
//!   go as it is, and the other.
//! - [`FqCodel::put_counted`] returns how many packets and bytes a put dropped, as [`Dropped`].
//! - [`FqCodel::change`] replaces the settings, [`FqCodel::purge`] loses every packet, [`FqCodel::queued`] counts.
//!
//! ```
//! let mut fq_codel = FqCodel::new(alloc, Settings::defaults(1514))?;
//! fq_codel.reserve()?;
//! let is_queued = fq_codel.put(packet, now, &mut losses);
//! while let Some(taken) = fq_codel.take(later, &mut losses) {
//!     transmit(taken.packet);
//! }
//! ```
//!
//! The algorithm, in the order in which a packet meets it (RFC 8290; Linux's sch_fq_codel has the same principles):
//!
//! - A packet goes to the flow `hash mod flows`. Flows whose hashes agree share a queue, and within a flow no packet passes another.
//! - A flow that is in no list when it gets a packet joins the end of the list of *new* flows, with one quantum of credits.
//! - Past the limit of all flows together, the flow with the most bytes loses a batch of packets from its front.
//! - A take looks at the first new flow, or where there is none at the first *old* one. If that flow has no credits left, it gets a
//!   quantum and goes to the end of the old list, and the take looks again.
//! - The first flow with credits sends. CoDel may drop packets from its front before that, and may mark what is sent. The credits are
//!   lowered by what is sent, if need be below 0, and the flow keeps its position.
//! - A flow with credits that has no packets leaves its list: an old one leaves both, and a new one goes to the end of the old list
//!   first, so that no flow keeps the others waiting by coming back as a new one.
//!
//! A contract sees an fq_codel as the record `FqView` (`specs/FqState.antt`): its state, `FqState`, and how many packets there
//! is memory for. `put` is `after_put` and `lost_by_put` of `specs/Put.antt`: the fat flow and its batch. `take` is `selected`
//! and what is sent from it (`specs/Take.antt`): for each listed flow the least number of quanta that makes its credits
//! positive (`specs/Quanta.antt`), and from these numbers the flow that sends and both lists (`specs/Selection.antt`). No
//! definition goes round by round. Each call's losses reach the lent sink in order, with their cause.
//! `specs/Lawful.antt` has what every value of the type keeps.
//!
//! The packets of each flow are linked through one slab, and both lists through the flows' own links; a tournament tree has
//! the fat flow at its root. A packet that leaves is not cleared: its node stays in the slab, linked to others that are spare,
//! and the next packet takes the first of these. So a put takes a few steps, and one for each level of the tree at most, twice where it drops. A
//! take does so too, after a few steps for each listed flow that it passes over, as it has no credits or no packets. However small the
//! quantum is, these are no more: where a flow needs a second quantum, the rounds in which no flow sends are given at once, each flow
//! getting the fewest quanta that one with a packet needs (`specs/Rounds.antt`). A change of the settings touches no flow. A flow takes 96 bytes at most, and a packet 88.
//!
//! [`laws`] states what follows from these definitions: nothing is made or lost, a put leaves a packet, each call keeps the
//! state lawful, a flow that has just become new sends before any flow of the old list, and a flow's credits grow by the quanta
//! that are added to them (`specs/QuantaGiven.antt`).
#![tactic(auto)]

mod active_lists;
mod chain;
mod course;
mod dropped;
mod ends;
mod entry;
mod flow_list;
mod flow_queue;
mod flows;
mod fq_codel;
pub mod laws;
mod link;
mod links;
mod node;
mod nodes;
mod place;
mod pool;
mod sent;
mod settings;
mod visit;
mod winners;

pub use dropped::Dropped;
pub use flows::Late;
pub use fq_codel::FqCodel;
pub use sent::Sent;
pub use settings::Settings;
