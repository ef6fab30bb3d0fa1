//! Plays, each beside a device that is asked for the same events one after another, and a command that no line of tc says.
use crate::device_bench::{Call, called};
use crate::lines::{Ask, New, Spot};
use q_device::{Fate, Refusal};
use q_packet::Cause;
use std::test::Fail;

const DONE: Result<(), Refusal> = Ok(());

const KEPT: Fate = Fate::Kept;

const PFIFO: New = New::Pfifo(None);

// No line of tc names the device itself as a place. What is refused names the time 9, which does not count.
#[test]
fn nothing_is_grafted_in_place_of_the_device(rt: HostRuntime) -> Result<(), Fail> {
    called(
        rt.alloc(),
        &[
            Call::Do(Ask::Graft(Spot::Root, 1, New::Prio(2)), 1, DONE),
            Call::Arrive(1, 100, 0, 2, KEPT),
            Call::Do(Ask::Graft(Spot::Top, 1, PFIFO), 9, Err(Refusal::Exists)),
            Call::Events(2, 2),
            Call::ReapNone,
            Call::Node(0, 1, 2, 1),
            Call::Node(1, 0, 0, 1),
            Call::Node(2, 0, 0, 0),
            Call::Nodes(3),
            Call::Do(Ask::Match(1, 2, Some(7)), 3, DONE),
            Call::Recorded(2, Ask::Match(1, 2, Some(7)), 3),
            Call::Poll(3, 1, 100, 0),
        ],
    )
}

// A tree in which each command that may take memory is done, with packets and losses between them. `embed/c/refused.c` makes these calls while one
// allocation after another fails.
const LARGE: [Call; 31] = [
    Call::Do(Ask::Graft(Spot::Root, 1, New::Prio(2)), 0, DONE),
    Call::Do(Ask::Graft(Spot::Class(1, 1), 2, New::Drr), 1, DONE),
    Call::Do(Ask::AddClass(2, 1, 1500), 2, DONE),
    Call::Do(Ask::AddClass(2, 1, 1500), 2, Err(Refusal::Exists)),
    Call::Do(Ask::Match(2, 1, Some(0)), 3, DONE),
    Call::Do(Ask::Match(2, 1, Some(7)), 3, DONE),
    Call::Arrive(1, 1000, 0, 4, KEPT),
    Call::Arrive(2, 1000, 1, 4, KEPT),
    Call::Do(Ask::Graft(Spot::Class(2, 1), 3, New::FqCodel(2)), 5, DONE),
    Call::Arrive(3, 1000, 0, 5, KEPT),
    Call::Arrive(4, 1000, 0, 5, KEPT),
    Call::Arrive(5, 1000, 0, 5, KEPT),
    Call::Do(Ask::Change(Spot::None, 1, New::Prio(3)), 6, DONE),
    Call::Do(Ask::Graft(Spot::Class(1, 3), 4, New::Tbf(1500)), 7, DONE),
    Call::Arrive(6, 1000, 2, 8, KEPT),
    Call::Arrive(7, 1000, 2, 8, KEPT),
    Call::Poll(8, 4, 1000, 0),
    Call::Poll(8, 5, 1000, 0),
    Call::Poll(8, 2, 1000, 1),
    Call::Poll(8, 6, 1000, 2),
    Call::Later(9),
    Call::Do(Ask::ChangeClass(2, 1, 500), 10, DONE),
    Call::Do(Ask::Unfilter(2), 10, DONE),
    Call::Arrive(8, 1000, 0, 11, Fate::Lost(Cause::NoClass)),
    Call::Do(Ask::DelClass(2, 1), 12, DONE),
    Call::Do(Ask::Change(Spot::None, 1, New::Prio(2)), 13, DONE),
    Call::Do(Ask::Prune(Spot::None, 1), 14, DONE),
    Call::Do(Ask::Prune(Spot::None, 1), 15, Err(Refusal::NoQdisc)),
    Call::Arrive(9, 1000, 0, 15, KEPT),
    Call::Poll(16, 9, 1000, 0),
    Call::Idle(16),
];

#[test]
fn a_play_is_answered_as_the_device(rt: HostRuntime) -> Result<(), Fail> {
    called(rt.alloc(), &LARGE)
}

#[test]
fn a_play_of_nothing_has_no_replies(rt: HostRuntime) -> Result<(), Fail> {
    called(rt.alloc(), &[])
}
