//! What a tree answers of itself: its nodes and views, when it is ready, what it holds, and the ways to classes.

pub(crate) mod find;
pub(crate) mod lanes;
pub(crate) mod listed_flows;
pub(crate) mod most_packets;
pub(crate) mod node_ref;
pub(crate) mod nodes;
pub(crate) mod oldest;
pub(crate) mod ready_at;
pub(crate) mod turns;
pub(crate) mod views;
pub(crate) mod ways;
