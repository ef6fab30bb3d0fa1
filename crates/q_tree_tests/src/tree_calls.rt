//! What a tree alone has: a call for each kind of command, and packets that are routed, put, peeked at and taken. And commands that no line of tc
//! asks for: a qdisc at the top, and one that neither its place nor its handle names.
ghost use Rattle.std.specs.Prelude.{◌+◌, ◌-◌, ◌≤◌, length, IfOk, OnOk};
ghost use Rattle.q_model.specs.Beneath.{beneath};

use crate::lines::{Ask, New, Spot, packet};
use q_codel::Losses;
use q_model::{ClassKind, Command, Fate, Refusal};
use q_packet::{Cause, Moment};
use q_tree::Tree;
use std::alloc::Global;
use std::test::Fail;

type Answer = Result<(), Refusal>;

const DONE: Answer = Ok(());

const PFIFO: New = New::Pfifo(None);

// A call on a tree, and what it has to answer.
pub enum Call {
    // The call for this kind of command. Where it is refused, so is the call for every command.
    Do(Ask, Answer),
    // The same, so many times, and each is done.
    Repeat(u16, Ask),
    // A packet of 100 bytes with this number is kept.
    Put(u64),
    // The number, the length and the priority of a packet, and what becomes of it.
    Arrive(u64, u16, u8, Fate),
    // The number of the packet that a peek shows; 0 where none is.
    Peek(u64),
    // The number of the packet that a take gives; 0 where none is.
    Take(u64),
    // The same at this time in nanoseconds, or at the tree's, if that is later.
    TakeAt(u64, u64),
    // The number of the packet that was lost first of those that wait to be reaped, and why.
    Lost(u64, Cause),
    // No loss waits.
    NoLoss,
    // How many packets wait in a place.
    Waiting(Spot, u64),
    // The packets that arrived in a place, those that were sent, refused and dropped there, and those that wait.
    Counts(Spot, [u64; 5]),
    // A node's place in the tree's order, that of a class of a drr in it, and its quantum and deficit; with none it is not active.
    Class(usize, usize, u32, Option<u64>),
}

// Makes room for every packet that may be lost, and one more.
fn make_room(tree: &Tree, losses: &mut Losses) -> Result<(), Fail>
    ensures { OnOk result (length (beneath tree.now.tree.root) + 1 ≤ losses.new.places - length losses.new.waiting) }
{
    let row = tree.totals();
    let queued = row.queued.packets.checked_add(1).ok_or("room")?;
    losses.reserve(queued as usize)?;
    Ok(())
}

// What is answered by the call that is for such commands alone.
fn by_kind(alloc: Global, tree: &mut Tree, sink: &mut Losses, command: &Command) -> Answer
    requires { length (beneath tree.old.tree.root) + 1 ≤ sink.old.places - length sink.old.waiting }
{
    let now = tree.clock();
    match *command {
        Command::QdiscAdd {
            place,
            handle,
            kind,
        } => tree.graft(alloc, place, handle, kind, now, sink),
        Command::QdiscChange {
            place,
            handle,
            kind,
        } => tree.change(alloc, place, handle, kind, now, sink),
        Command::QdiscDel { place, handle } => tree.prune(alloc, place, handle, sink),
        Command::ClassAdd {
            parent,
            class,
            quantum,
        } => tree.class_add(alloc, parent, class, quantum),
        Command::ClassChange {
            parent,
            class,
            quantum,
        } => tree.class_change(parent, class, quantum),
        Command::ClassDel { parent, class } => tree.class_del(parent, class, sink),
        Command::FilterAdd {
            parent,
            major,
            filter,
        } => tree.filter_add(parent, major, filter),
        Command::FilterDel { parent, prio } => tree.filter_del(parent, prio),
    }
}

// Whether a command is done, or refused by both calls.
fn is_answered(
    alloc: Global,
    tree: &mut Tree,
    losses: &mut Losses,
    command: &Command,
    answer: Answer,
) -> Result<bool, Fail> {
    make_room(tree, losses)?;
    if by_kind(alloc, tree, losses, command) != answer {
        return Ok(false);
    }
    if answer.is_ok() {
        return Ok(true);
    }
    let now = tree.clock();
    make_room(tree, losses)?;
    Ok(tree.command(alloc, *command, now, losses) == answer)
}

fn are_done(
    alloc: Global,
    tree: &mut Tree,
    losses: &mut Losses,
    times: u16,
    command: &Command,
) -> Result<bool, Fail> {
    for _ in 0..times {
        if !is_answered(alloc, tree, losses, command, DONE)? {
            return Ok(false);
        }
    }
    Ok(true)
}

// What becomes of a packet with this number, this length and this priority.
fn put(
    tree: &mut Tree,
    losses: &mut Losses,
    number: u64,
    len: u16,
    prio: u8,
) -> Result<Fate, Fail> {
    let packet = packet(number, len, prio).ok_or("packet")?;
    let now = tree.clock();
    let route = tree.route(&packet);
    tree.prepare(&route)?;
    make_room(tree, losses)?;
    Ok(tree.put(&route, packet, now, losses))
}

// This time, or that of the tree, if that is later.
fn later(tree: &Tree, ns: u64) -> Result<Moment, Fail>
    ensures { IfOk result (λ now. tree.now.clock ≤ now) }
{
    let clock = tree.clock();
    if ns <= clock.ns() {
        return Ok(clock);
    }
    Ok(Moment::new(ns).ok_or("time")?)
}

// The number of the packet whose turn it is at that time, which a take gives and a peek shows; 0 where none is.
fn next(tree: &mut Tree, losses: &mut Losses, ns: u64, is_taken: bool) -> Result<u64, Fail> {
    let now = later(tree, ns)?;
    make_room(tree, losses)?;
    let packet = if is_taken {
        tree.take(now, losses)
    } else {
        tree.peek(now, losses)
    };
    match packet {
        Some(packet) => Ok(packet.number),
        None => Ok(0),
    }
}

fn has_lost(losses: &mut Losses, number: u64, cause: Cause) -> bool {
    match losses.reap() {
        Some(loss) => {
            let packet = loss.packet;
            packet.number == number && loss.cause == cause
        }
        None => false,
    }
}

// The packets in a place: those that arrived, were sent, refused and dropped, and those that wait.
fn counts(tree: &Tree, spot: Spot) -> Option<[u64; 5]> {
    let row = tree.stats(spot.place()?)?;
    Some([
        row.arrived.packets,
        row.sent.packets,
        row.refused.packets,
        row.dropped.packets,
        row.queued.packets,
    ])
}

// Whether a class of a drr has this quantum and deficit.
fn has(tree: &Tree, (i, j): (usize, usize), quantum: u32, deficit: Option<u64>) -> bool {
    match tree.class(i, j) {
        Some(class) => class.kind == ClassKind::Drr { quantum, deficit },
        None => false,
    }
}

fn is_right(
    alloc: Global,
    tree: &mut Tree,
    losses: &mut Losses,
    call: &Call,
) -> Result<bool, Fail> {
    match call {
        Call::Do(ask, answer) => {
            let command = ask.command().ok_or("command")?;
            is_answered(alloc, tree, losses, &command, *answer)
        }
        Call::Repeat(times, ask) => {
            let command = ask.command().ok_or("command")?;
            are_done(alloc, tree, losses, *times, &command)
        }
        Call::Put(number) => Ok(put(tree, losses, *number, 100, 0)? == Fate::Kept),
        Call::Arrive(number, len, prio, fate) => {
            Ok(put(tree, losses, *number, *len, *prio)? == *fate)
        }
        Call::Peek(number) => Ok(next(tree, losses, 0, false)? == *number),
        Call::Take(number) => Ok(next(tree, losses, 0, true)? == *number),
        Call::TakeAt(ns, number) => Ok(next(tree, losses, *ns, true)? == *number),
        Call::Lost(number, cause) => Ok(has_lost(losses, *number, *cause)),
        Call::NoLoss => Ok(losses.reap().is_none()),
        _ => Ok(is_seen(tree, call)),
    }
}

// Whether a call that only reads answers as it has to.
fn is_seen(tree: &Tree, call: &Call) -> bool {
    match call {
        Call::Waiting(spot, packets) => match counts(tree, *spot) {
            Some(counts) => counts[4] == *packets,
            None => false,
        },
        Call::Counts(spot, wanted) => counts(tree, *spot) == Some(*wanted),
        Call::Class(i, j, quantum, deficit) => has(tree, (*i, *j), *quantum, *deficit),
        _ => false,
    }
}

// The place of the first call that is not answered as it has to be.
fn wrong_at(
    alloc: Global,
    tree: &mut Tree,
    losses: &mut Losses,
    calls: &[Call],
) -> Result<Option<usize>, Fail> {
    for (place, call) in calls.iter().enumerate() {
        if !is_right(alloc, tree, losses, call)? {
            return Ok(Some(place));
        }
    }
    Ok(None)
}

/// The same of these calls on a new tree, a pfifo of 100 packets, of at most 1500 bytes each. This alone drops a tree, in one place, since each way on
/// which one is dropped takes long to prove.
pub fn first_wrong(alloc: Global, calls: &[Call]) -> Result<Option<usize>, Fail> {
    let mut tree = Tree::new(alloc, 1500, 100);
    let mut losses = Losses::new(alloc);
    wrong_at(alloc, &mut tree, &mut losses, calls)
}

fn called(alloc: Global, calls: &[Call]) -> Result<(), Fail> {
    match first_wrong(alloc, calls)? {
        None => Ok(()),
        Some(place) => Err(Fail::new(format_args!("call {place}"))),
    }
}

// First at the tree as it is, and then at a prio, 1:, over a pfifo, 2:.
#[test]
fn what_no_line_asks_for_is_refused(rt: HostRuntime) -> Result<(), Fail> {
    called(
        rt.alloc(),
        &[
            Call::Do(Ask::Graft(Spot::Top, 1, PFIFO), Err(Refusal::Exists)),
            Call::Do(Ask::Graft(Spot::Root, 1, New::Prio(4)), DONE),
            Call::Do(Ask::Graft(Spot::Class(1, 1), 2, PFIFO), DONE),
            Call::Do(Ask::Graft(Spot::Top, 6, PFIFO), Err(Refusal::Exists)),
            // With HandleTaken.
            Call::Do(Ask::Graft(Spot::Top, 1, PFIFO), Err(Refusal::Exists)),
            Call::Do(Ask::Change(Spot::None, 0, PFIFO), Err(Refusal::NoQdisc)),
            Call::Do(Ask::Change(Spot::Top, 0, PFIFO), Err(Refusal::NoQdisc)),
            Call::Do(Ask::Change(Spot::Top, 2, PFIFO), Err(Refusal::NoQdisc)),
            Call::Do(Ask::Prune(Spot::None, 0), Err(Refusal::NoQdisc)),
            Call::Do(Ask::Prune(Spot::Top, 0), Err(Refusal::NoQdisc)),
            Call::Do(Ask::Prune(Spot::Top, 1), Err(Refusal::NoQdisc)),
        ],
    )
}

// A drr has a class, to which every packet goes. The first of two packets is shown twice, while the drr holds it and the second waits below; then
// both are taken, and the class and the drr go.
#[test]
fn each_call_of_a_tree_is_answered(rt: HostRuntime) -> Result<(), Fail> {
    called(
        rt.alloc(),
        &[
            Call::Do(Ask::Graft(Spot::Root, 1, New::Drr), DONE),
            Call::Do(Ask::AddClass(1, 1, 1500), DONE),
            Call::Do(Ask::Match(1, 1, None), DONE),
            Call::Do(Ask::Graft(Spot::Class(1, 1), 2, New::Pfifo(Some(2))), DONE),
            Call::Do(Ask::Change(Spot::None, 2, New::Pfifo(Some(5))), DONE),
            Call::Do(Ask::ChangeClass(1, 1, 3000), DONE),
            Call::Put(1),
            Call::Put(2),
            Call::Peek(1),
            Call::Waiting(Spot::Class(1, 1), 1),
            Call::Peek(1),
            Call::Take(1),
            Call::Take(2),
            Call::Take(0),
            Call::Do(Ask::Unfilter(1), DONE),
            Call::Do(Ask::DelClass(1, 1), DONE),
            Call::Do(Ask::Prune(Spot::None, 1), DONE),
        ],
    )
}
