//! The model: the data that tc's lines, the tree and its views share, and what a device does, as definitions that compute.
//!
//! - [`Command`] is a change of the tree, as the `tc` lines ask for it: [`Kind`] is a qdisc with its options, [`Place`] and
//!   [`ClassId`] say where it goes, [`FilterKeys`] which packets a filter takes. Their numbers have types that keep their
//!   ranges: [`Handle`], [`Minor`], [`Quantum`], [`Rate`], [`Burst`], [`Latency`], [`FilterPrio`], [`PrioOptions`],
//!   [`FqCodelOptions`] and [`IpPrefix`]. What is made of these has a method `ranges`, whose clause says so to the proofs
//!   of other crates, as [`Event::ranges`].
//! - [`Refusal`] is why a change was not made, with the number and the name of each refusal.
//! - [`Row`] is what a node counted: six [`Totals`] of packets and bytes.
//! - [`NodeView`], [`ClassView`] and [`FilterView`] are what `show` prints of a node, a class and a filter.
//! - [`Settings`] are a device's mtu, queue length and recorder. An [`Event`] is an arrival, a poll or a command, with its
//!   time. A [`Reply`] is its result: a [`Fate`], a [`Polled`], or whether the command was done, else the
//!   [`Refusal`].
//!
//! All of these are `Copy` and hold no text.
//!
//! The definitions are in `specs/`. Of the tree: `Node` says what a tree is, `Route` where an arriving packet goes, `Put`
//! what it does there, `Ask` how a qdisc is peeked and taken from; `QdiscCommands`, `ClassCommands` and `FilterCommands` say
//! what each command changes and when it is refused, `Edit` what that does to the tree, `Views` what show prints of it,
//! `Lawful` what every tree is to keep. Of the device: `Step` says what an event makes of it, and `Replay` what a list of
//! them does. A rule never reads what a node remembers (`Tally`): it works on the bare tree and says what each node has to
//! note. So the rules are the same whether a tree keeps totals or whole histories (`proofs/ShrinkSteps.antt`, and the laws of
//! `q_device`).
//!
//! This crate has no tests: `q_discipline_tests` has them, and `q_worked_examples` computes the definitions on worked scripts. The
//! code of the tree is in `q_tree`, that of the device in `q_device`.
#![tactic(auto)]

mod burst;
mod class_id;
mod class_kind;
mod class_view;
mod command;
mod event;
mod fate;
mod filter;
mod filter_keys;
mod filter_prio;
mod filter_view;
mod fq_codel_options;
mod handle;
mod ip_prefix;
mod ip_version;
mod kind;
mod latency;
mod minor;
mod node_view;
mod place;
mod polled;
mod prio_options;
mod protocol;
mod qdisc_view;
mod quantum;
mod ranges;
mod rate;
mod refusal;
mod reply;
mod row;
mod settings;
mod tbf_limit;
mod totals;

pub use burst::Burst;
pub use class_id::ClassId;
pub use class_kind::ClassKind;
pub use class_view::ClassView;
pub use command::Command;
pub use event::Event;
pub use fate::Fate;
pub use filter::Filter;
pub use filter_keys::FilterKeys;
pub use filter_prio::FilterPrio;
pub use filter_view::FilterView;
pub use fq_codel_options::FqCodelOptions;
pub use handle::Handle;
pub use ip_prefix::IpPrefix;
pub use ip_version::IpVersion;
pub use kind::Kind;
pub use latency::Latency;
pub use minor::Minor;
pub use node_view::NodeView;
pub use place::Place;
pub use polled::Polled;
pub use prio_options::PrioOptions;
pub use protocol::Protocol;
pub use qdisc_view::QdiscView;
pub use quantum::Quantum;
pub use ranges::{laws_take_every_packet, packet_ranges, stored_ranges};
pub use rate::Rate;
pub use refusal::Refusal;
pub use reply::Reply;
pub use row::Row;
pub use settings::Settings;
pub use tbf_limit::TbfLimit;
pub use totals::Totals;
