//! Scripts of calls on a tree without a device: a drr whose classes take turns, a purge below one, a tbf below a prio and below a drr, eight levels,
//! and as many nodes and filters as may be.
use crate::lines::{Ask, New, Spot};
use crate::tree_calls::{Call, first_wrong};
use q_model::{Fate, Refusal};
use q_packet::Cause;
use std::test::Fail;

type Answer = Result<(), Refusal>;

const DONE: Answer = Ok(());

const KEPT: Fate = Fate::Kept;

// A tbf of 1000 bytes, which gets 1000 a second.
const SLOW: New = New::Shaper(8000, 1000);

// A tbf of seven nested ones.
const NESTED: New = New::Tbf(2048);

// A name, and the calls of a script.
const SCRIPTS: &[(&str, &[Call])] = &[
    // The first packet of class 1:1 is longer than its deficit, so that it gets a second quantum and goes to the end. No class takes the last one.
    (
        "a drr with two classes and no class",
        &[
            Call::Do(Ask::Graft(Spot::Root, 1, New::Drr), DONE),
            Call::Do(Ask::AddClass(1, 1, 1000), DONE),
            Call::Do(Ask::AddClass(1, 2, 1000), DONE),
            Call::Do(Ask::Match(1, 1, Some(1)), DONE),
            Call::Do(Ask::Match(1, 2, Some(2)), DONE),
            Call::Arrive(1, 1500, 1, KEPT),
            Call::Arrive(2, 500, 2, KEPT),
            Call::Arrive(3, 500, 2, KEPT),
            Call::Arrive(4, 500, 2, KEPT),
            Call::Class(0, 0, 1000, Some(1000)),
            Call::Take(2),
            Call::Class(0, 0, 1000, Some(2000)),
            Call::Class(0, 1, 1000, Some(500)),
            Call::Take(3),
            Call::Take(1),
            Call::Class(0, 0, 1000, None),
            Call::Class(0, 1, 1000, Some(1000)),
            Call::Take(4),
            Call::Take(0),
            Call::Arrive(5, 40, 0, Fate::Lost(Cause::NoClass)),
            Call::Lost(5, Cause::NoClass),
            Call::NoLoss,
            Call::Counts(Spot::Root, [5, 4, 1, 0, 0]),
        ],
    ),
    // The packets of an fq_codel are lost in order, and its class is not active any more; the pfifo in its place has counted nothing.
    (
        "a purge below a drr",
        &[
            Call::Do(Ask::Graft(Spot::Root, 1, New::Drr), DONE),
            Call::Do(Ask::AddClass(1, 1, 0), DONE),
            Call::Do(
                Ask::Graft(Spot::Class(1, 1), 16, New::FqCodel(10_240)),
                DONE,
            ),
            Call::Do(Ask::Match(1, 1, None), DONE),
            Call::Arrive(1, 100, 0, KEPT),
            Call::Arrive(2, 200, 0, KEPT),
            Call::Arrive(3, 300, 0, KEPT),
            Call::Do(Ask::Prune(Spot::Class(1, 1), 0), DONE),
            Call::Take(0),
            Call::Lost(1, Cause::Purged),
            Call::Lost(2, Cause::Purged),
            Call::Lost(3, Cause::Purged),
            Call::NoLoss,
            Call::Class(0, 0, 1500, None),
            Call::Counts(Spot::Root, [3, 0, 0, 3, 0]),
            Call::Counts(Spot::Class(1, 1), [0, 0, 0, 0, 0]),
            // Both take packets again.
            Call::Arrive(4, 400, 0, KEPT),
            Call::Class(0, 0, 1500, Some(1500)),
            Call::Take(4),
            Call::Take(0),
        ],
    ),
    // The tbf of the first band has tokens for one packet. Once they are spent it holds the second, and the other band is served.
    (
        "a tbf below a prio",
        &[
            Call::Do(Ask::Graft(Spot::Root, 1, New::Prio(3)), DONE),
            Call::Do(Ask::Graft(Spot::Class(1, 1), 16, SLOW), DONE),
            Call::Arrive(1, 1000, 0, KEPT),
            Call::Arrive(2, 1000, 0, KEPT),
            Call::Arrive(3, 500, 1, KEPT),
            Call::Take(1),
            Call::Take(3),
            Call::Take(0),
            Call::Waiting(Spot::Root, 1),
            Call::TakeAt(999_999_999, 0),
            Call::TakeAt(1_000_000_000, 2),
        ],
    ),
    // A drr waits for the class in front, and passes over it once the packet that the tbf shows is longer than its deficit.
    (
        "a tbf below a drr",
        &[
            Call::Do(Ask::Graft(Spot::Root, 1, New::Drr), DONE),
            Call::Do(Ask::AddClass(1, 1, 1514), DONE),
            Call::Do(Ask::AddClass(1, 2, 1514), DONE),
            Call::Do(Ask::Match(1, 1, Some(1)), DONE),
            Call::Do(Ask::Match(1, 2, Some(2)), DONE),
            Call::Do(Ask::Graft(Spot::Class(1, 1), 16, SLOW), DONE),
            Call::Arrive(1, 1000, 1, KEPT),
            Call::Arrive(2, 1000, 1, KEPT),
            Call::Arrive(3, 500, 2, KEPT),
            Call::Take(1),
            Call::Take(0),
            Call::Class(0, 0, 1514, Some(514)),
            Call::TakeAt(1_000_000_000, 3),
            Call::Class(0, 0, 1514, Some(2028)),
            Call::TakeAt(1_000_000_000, 2),
            Call::Take(0),
            Call::Waiting(Spot::Top, 0),
        ],
    ),
    // An eighth tbf would bring a leaf at depth 9, and a pfifo in its place brings none.
    (
        "depth eight",
        &[
            Call::Do(Ask::Graft(Spot::Root, 1, NESTED), DONE),
            Call::Do(Ask::Graft(Spot::Class(1, 1), 2, NESTED), DONE),
            Call::Do(Ask::Graft(Spot::Class(2, 1), 3, NESTED), DONE),
            Call::Do(Ask::Graft(Spot::Class(3, 1), 4, NESTED), DONE),
            Call::Do(Ask::Graft(Spot::Class(4, 1), 5, NESTED), DONE),
            Call::Do(Ask::Graft(Spot::Class(5, 1), 6, NESTED), DONE),
            Call::Do(Ask::Graft(Spot::Class(6, 1), 7, NESTED), DONE),
            Call::Do(
                Ask::Graft(Spot::Class(7, 1), 8, NESTED),
                Err(Refusal::TooDeep),
            ),
            Call::Do(Ask::Graft(Spot::Class(7, 1), 8, New::Pfifo(None)), DONE),
            Call::Arrive(1, 1000, 0, KEPT),
            Call::Counts(Spot::Class(7, 1), [1, 0, 0, 0, 1]),
            Call::Take(1),
            Call::Take(0),
        ],
    ),
    // 17 nodes, and 14 times 16 more; the fifteenth time would make 257.
    (
        "as many nodes as may be",
        &[
            Call::Do(Ask::Graft(Spot::Root, 1, New::Prio(16)), DONE),
            Call::Do(Ask::Graft(Spot::Class(1, 1), 0, New::Prio(16)), DONE),
            Call::Do(Ask::Graft(Spot::Class(1, 2), 0, New::Prio(16)), DONE),
            Call::Do(Ask::Graft(Spot::Class(1, 3), 0, New::Prio(16)), DONE),
            Call::Do(Ask::Graft(Spot::Class(1, 4), 0, New::Prio(16)), DONE),
            Call::Do(Ask::Graft(Spot::Class(1, 5), 0, New::Prio(16)), DONE),
            Call::Do(Ask::Graft(Spot::Class(1, 6), 0, New::Prio(16)), DONE),
            Call::Do(Ask::Graft(Spot::Class(1, 7), 0, New::Prio(16)), DONE),
            Call::Do(Ask::Graft(Spot::Class(1, 8), 0, New::Prio(16)), DONE),
            Call::Do(Ask::Graft(Spot::Class(1, 9), 0, New::Prio(16)), DONE),
            Call::Do(Ask::Graft(Spot::Class(1, 10), 0, New::Prio(16)), DONE),
            Call::Do(Ask::Graft(Spot::Class(1, 11), 0, New::Prio(16)), DONE),
            Call::Do(Ask::Graft(Spot::Class(1, 12), 0, New::Prio(16)), DONE),
            Call::Do(Ask::Graft(Spot::Class(1, 13), 0, New::Prio(16)), DONE),
            Call::Do(Ask::Graft(Spot::Class(1, 14), 0, New::Prio(16)), DONE),
            Call::Do(
                Ask::Graft(Spot::Class(1, 15), 0, New::Prio(16)),
                Err(Refusal::TooMany),
            ),
        ],
    ),
    (
        "as many filters as a node may have",
        &[
            Call::Do(Ask::Graft(Spot::Root, 1, New::Prio(2)), DONE),
            Call::Repeat(256, Ask::Match(1, 2, Some(7))),
            Call::Do(Ask::Match(1, 2, Some(7)), Err(Refusal::TooMany)),
            Call::Do(Ask::Unfilter(1), DONE),
            Call::Do(Ask::Match(1, 2, Some(7)), DONE),
        ],
    ),
];

#[test]
fn scripts_of_a_tree_are_answered(rt: HostRuntime) -> Result<(), Fail> {
    for (name, calls) in SCRIPTS {
        if let Some(place) = first_wrong(rt.alloc(), calls)? {
            return Err(Fail::new(format_args!("{name}: call {place}")));
        }
    }
    Ok(())
}
