//! The tree of queueing disciplines of one device. It reads no clock: the caller passes the time. It knows no text and no threads.
//!
//! - [`Tree`] has the qdiscs. A packet is routed, put into its queue, peeked at and taken. [`Tree::arrive`] routes a packet and puts it in one
//!   call, and [`Tree::send`] takes one into a place of the caller. [`Tree::ready_at`] returns when the next take may give a packet,
//!   [`Tree::most_packets`] how many packets the tree can hold, and [`Tree::oldest`] since when the oldest packet of a place waits.
//! - [`Route`] is the way of a packet down from the root, and [`Way`] is the way to a class of a drr. On a [`Way`], [`Link`] is the tbf at the
//!   root, and each [`Share`] is a class of a drr in numbers. A [`Lane`] is a fifo whose packets no other packet overtakes. A [`Turn`] is a
//!   class of a drr whose packets are in a fifo.
//! - [`Command`] is a change of the tree, [`Kind`] is a qdisc with its options, and [`Place`] is where the qdisc goes.
//! - [`Refusal`] says why a command was not carried out. [`Row`] has the counters of a node. [`NodeView`], [`ClassView`] and [`FilterView`] are
//!   what `show` prints, and [`ListedFlows`] says how many flows of an fq_codel are new and old. [`Nodes`] walks over all nodes of a tree, each of
//!   which is a [`NodeRef`].
//! - [`laws`] has what holds for every tree, and for every call that handles a packet.
//!
//! What a tree does is defined in the `specs/` of `q_model`. [`Tree::command`] carries out any command. [`Tree::graft`], [`Tree::prune`] and
//! [`Tree::change`] add, remove and change a qdisc; [`Tree::class_add`], [`Tree::class_change`] and [`Tree::class_del`] do so for the classes of a
//! drr, and [`Tree::filter_add`] and [`Tree::filter_del`] add and remove filters.
#![tactic(auto)]

mod answers;
mod arrival;
mod bursts;
mod commands;
mod counters;
mod departure;
mod disciplines;
mod filters;
pub mod laws;
mod node;
mod route;
mod tree;

pub use crate::answers::lanes::Lane;
pub use crate::answers::listed_flows::ListedFlows;
pub use crate::answers::node_ref::NodeRef;
pub use crate::answers::nodes::Nodes;
pub use crate::answers::turns::Turn;
pub use crate::answers::ways::{Link, Share, Way};
pub use crate::route::Route;
pub use crate::tree::Tree;
pub use q_model::{
    Burst, ClassId, ClassKind, ClassView, Command, Filter, FilterKeys, FilterPrio, FilterView,
    FqCodelOptions, Handle, IpPrefix, IpVersion, Kind, Latency, Minor, NodeView, Place,
    PrioOptions, Protocol, QdiscView, Quantum, Rate, Refusal, Row, TbfLimit, Totals,
};
