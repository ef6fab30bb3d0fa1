//! A device for C, whose header is `embed/include/qtree.h`.
#![tactic(auto)]

mod abi;
mod answers;
mod device;
mod events;
mod frames;
mod rings;
mod show;
