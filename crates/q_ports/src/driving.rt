ghost use Rattle.std.specs.Prelude.{◌≡◌, ℕ, ◌≤◌, ◌+◌, ◌-◌, ◌*◌, ◌^◌, min, true, [], length, map, sum_by, vec_capacity, All, IfOk, IfErr};
ghost use Rattle.core.specs.Mem.{manually_drop_value};
ghost use Rattle.q_ports.specs.Driven.{packets_of, port_in, promised_load, promised_port, rest_of, AllOffered, AreBack, Drove, HasDriven, HasKept, HasRun, IsRoomFor};
ghost use Rattle.q_ports.specs.DriveTurns.{HasTurned, ShowsTurns};
ghost use Rattle.q_ports.specs.Offered.{Offered};
ghost use Rattle.q_ports.specs.Placed.{placed_by, ring_of_port};
ghost use Rattle.q_ports.specs.Rings.{received_from, ring_id, AreBeginnings};

use crate::booked::Booked;
use crate::drain::Drain;
use crate::ended::Ended;
use crate::gate::Gate;
use crate::port::Port;
use crate::sender::{Sends, Sent, keep, send};
use crate::settled::Settled;
use crate::unsettled::Unsettled;
use q_packet::{Moment, Packet};
use std::alloc::{AllocError, Global};
use std::mem::ManuallyDrop;
use std::snapshot::Snapshot;
use std::sync::ledger::Ledger;
use std::sync::{Mutex, Wait};
use std::thread;
use std::thread::{PromisedHandle, Scope, Threads};

/// The most packets that a turn of `drive` takes.
const MOST: usize = 64;

/// What [`drive`](crate::drive) did: the settled drain, and how many packets of the loads were given up, since no port took them.
#[derive(Drop)]
pub struct Driven<P: Ledger, B: Ledger> {
    pub settled: Settled<P, B>,
    pub given_up: u64,
}

/// Runs a sender for each port while the caller's thread takes turns of the drain, and then settles. May wait for the lock, for gauges and for the
/// senders' threads, all of which are joined.
///
/// `ports` are exactly the drain's, in the order of their indexes, and `loads` has a list of packets for each. A sender has a thread of its own,
/// and offers the packets of its load in order, each at most `tries` times; a packet that is not placed by then is given up. `gate` is called once
/// before the first offer of each packet, and once after the packet was placed. A turn takes up to 64 packets. Turn k, counted from 0, is at the
/// time `start` and k times `step` nanoseconds, or at the latest time that there is.
///
/// Returns the settled drain, and how many packets were given up.
///
/// # Errors
///
/// Returns the drain and all its ports if settling fails, as [`Drain::settle`] does, if the memory for the senders cannot be allocated, or if a
/// thread cannot be started, whose sender has then offered nothing. What was placed and taken in stays so, and `settle` may follow.
pub fn drive<
    P: Ledger + Send + Sync,
    B: Ledger + Send + Sync,
    G: Gate + Sync,
    R: Threads + Wait + Sync,
>(
    rt: &R,
    alloc: Global,
    booked: &Mutex<Booked<P, B>>,
    drain: Drain<P, B>,
    ports: Vec<Port>,
    loads: Vec<Vec<Packet>>,
    gate: &G,
    start: Moment,
    step: u64,
    tries: u64,
) -> Result<Driven<P, B>, Unsettled<P, B>>
    requires parts { (P.parts ≡ 65) × (B.parts ≡ 65) }
    requires ports { map ring_of_port ports.items ≡ map ring_id drain.rings }
    requires loads { length loads.items ≡ length ports.items }
    ensures driven { IfOk result (λ d. HasDriven start step tries drain ports.items (map packets_of loads.items) d.settled d.given_up) }
    ensures rings { IfErr result (λ u. map ring_id u.drain.rings ≡ map ring_id drain.rings) }
    ensures again { IfErr result (λ u. map ring_of_port u.ports.items ≡ map ring_id u.drain.rings) }
    ensures back { IfErr result (λ u. AreBack tries ports.items (map packets_of loads.items) u.ports.items) }
    ensures beginnings { IfErr result (λ u. AreBeginnings (map received_from u.drain.rings) (map placed_by u.ports.items)) }
    ensures book { IfErr result (λ u. u.drain.board.book ≡ drain.board.book) }
    ensures turned { IfErr result (λ u. ShowsTurns start step drain u.drain.board) }
{
    let Ok((room, mut back)) = rooms(alloc, ports.len()) else {
        return Err(unsettled(drain, ports));
    };
    let pace = TurnMoments { start, step };
    let (drain, sent) = run(
        rt, alloc, booked, drain, ports, loads, room, gate, pace, tries,
    );
    let (given_up, all_ran) = give_back(sent, &mut back);
    if !all_ran {
        return Err(unsettled(drain, back));
    }
    match drain.settle(rt, booked, back, start) {
        Ok(settled) => Ok(Driven { settled, given_up }),
        Err(unsettled) => Err(unsettled),
    }
}

// What is handed back by a drain that does not settle. It checks the rings, of which it has both ends.
fn unsettled<P: Ledger, B: Ledger>(drain: Drain<P, B>, ports: Vec<Port>) -> Unsettled<P, B>
    requires { map ring_of_port ports.items ≡ map ring_id drain.rings }
    ensures rings { map ring_id result.drain.rings ≡ map ring_id drain.rings }
    ensures ports { result.ports.items ≡ ports.items }
    ensures beginnings { AreBeginnings (map received_from result.drain.rings) (map placed_by ports.items) }
    ensures board { result.drain.board ≡ drain.board }
{
    let Drain {
        mut intake,
        publisher,
    } = drain;
    let mut ports = ports;
    intake.look_all(&mut ports);
    Unsettled {
        drain: Drain { intake, publisher },
        ports,
    }
}

/// Room for senders, and for what they hand back.
#[derive(Drop)]
pub(crate) struct SenderRoom {
    pub(crate) started: Vec<Started>,
    pub(crate) sent: Vec<Sent>,
}

// Room for so many senders and what they hand back, and for their ports.
fn rooms(alloc: Global, count: usize) -> Result<(SenderRoom, Vec<Port>), AllocError>
    ensures senders { IfOk result (λ r. IsRoomFor count r.0) }
    ensures ports { IfOk result (λ r. (r.1.items ≡ []) × (count ≤ vec_capacity r.1)) }
{
    let started = Vec::with_capacity(alloc, count)?;
    let sent = Vec::with_capacity(alloc, count)?;
    let back = Vec::with_capacity(alloc, count)?;
    Ok((SenderRoom { started, sent }, back))
}

// Runs a sender for each port while the drain takes turns.
fn run<P: Ledger + Send + Sync, B: Ledger + Send + Sync, G: Gate + Sync, R: Threads + Wait + Sync>(
    rt: &R,
    alloc: Global,
    booked: &Mutex<Booked<P, B>>,
    drain: Drain<P, B>,
    ports: Vec<Port>,
    loads: Vec<Vec<Packet>>,
    room: SenderRoom,
    gate: &G,
    pace: TurnMoments,
    tries: u64,
) -> (Drain<P, B>, Vec<Sent>)
    requires loads { length loads.items ≡ length ports.items }
    requires room { IsRoomFor (length ports.items) room }
    ensures rings { map ring_id result.0.rings ≡ map ring_id drain.rings }
    ensures book { result.0.board.book ≡ drain.board.book }
    ensures turned { HasTurned pace.start pace.step drain result.0 }
    ensures drove { Drove tries ports.items (map packets_of loads.items) result.1.items }
{
    let all_ended = Ended::new();
    let ended = &all_ended;
    // A closure may hold only what may be dropped, and a drain may not. This one is called once, and hands the drain back.
    let held = unsafe { ManuallyDrop::new_unchecked(drain) };
    thread::scope(
        thread::scope_env(),
        rt,
        move |scope| -> (Drain<P, B>, Vec<Sent>)
            requires loads { length loads.items ≡ length ports.items }
            requires room { IsRoomFor (length ports.items) room }
            ensures rings { map ring_id result.0.rings ≡ map ring_id (manually_drop_value held).rings }
            ensures book { result.0.board.book ≡ (manually_drop_value held).board.book }
            ensures turned { HasTurned pace.start pace.step (manually_drop_value held) result.0 }
            ensures drove { Drove tries ports.items (map packets_of loads.items) result.1.items }
        {
            let drain = ManuallyDrop::into_inner(held);
            in_scope(
                scope, rt, alloc, booked, drain, ports, loads, room, gate, ended, pace, tries,
            )
        },
    )
}

// Takes the ports back, and answers how many packets were given up, and whether each sender ran.
fn give_back(sent: Vec<Sent>, back: &mut Vec<Port>) -> (u64, bool)
    requires { (back.old.items ≡ []) × (length sent.items ≤ vec_capacity back.old) }
    ensures ports { back.new.items ≡ map port_in sent.items }
    ensures given_up { result.0 ≡ min (sum_by rest_of sent.items) (2 ^ 64 - 1) }
    ensures ran { result.1 ≡ true → All HasRun sent.items }
{
    let mut given_up = 0u64;
    let mut all_ran = true;
    for sender in sent {
        given_up = given_up.saturating_add(sender.given_up);
        all_ran = both(all_ran, sender.ran);
        back.push_reserved(sender.port);
    }
    (given_up, all_ran)
}

// Whether both hold.
fn both(one: bool, other: bool) -> bool
    ensures { result ≡ true → (one ≡ true) × (other ≡ true) }
{
    one && other
}

// What a sender of this port and this load promises.
fn promise(port: &Port, load: &Vec<Packet>, tries: u64) -> Sends
    ensures port { result.port.value ≡ port.now }
    ensures load { result.load.value ≡ load.now }
    ensures tries { result.tries ≡ tries }
{
    Sends {
        port: Snapshot::of(port),
        load: Snapshot::of(load),
        tries,
    }
}

/// A sender: its thread, or what it hands back where there could be none.
#[derive(Drop)]
pub struct Started {
    pub promise: Sends,
    pub work: Result<PromisedHandle<Sent, Sends>, Sent>,
}

// Starts a sender in a thread of its own. Where there is none, it offers nothing.
fn start<'s, E, G: Gate + Sync>(
    scope: &Scope<'s, E>,
    port: Port,
    load: Vec<Packet>,
    gate: &'s G,
    ended: &'s Ended,
    tries: u64,
) -> Started
    ensures port { promised_port result ≡ port }
    ensures load { promised_load result ≡ load.items }
    ensures kept { HasKept tries result }
{
    let promised = promise(&port, &load, tries);
    let of_thread = promise(&port, &load, tries);
    let index = port.index();
    let job = move || -> Sent
        ensures { Offered tries result.ran port load.items result.port result.given_up }
    {
        let sent = send_unless_refused(port, load, gate, ended, tries);
        ended.add();
        sent
    };
    match scope.spawn_with(of_thread, job) {
        Ok(thread) => Started {
            promise: promised,
            work: Ok(thread),
        },
        Err(refused) => {
            ended.refuse(index);
            Started {
                promise: promised,
                work: Err((refused.value)()),
            }
        }
    }
}

// Offers a load at a port, or nothing where the sender got no thread.
fn send_unless_refused<G: Gate>(
    port: Port,
    load: Vec<Packet>,
    gate: &G,
    ended: &Ended,
    tries: u64,
) -> Sent
    ensures { Offered tries result.ran port load.items result.port result.given_up }
{
    if ended.is_refused(port.index()) {
        return keep(port, load);
    }
    send(port, load, gate, tries)
}

// Starts a sender for each port, in order.
fn start_all<'s, E, G: Gate + Sync>(
    scope: &Scope<'s, E>,
    ports: Vec<Port>,
    loads: Vec<Vec<Packet>>,
    room: Vec<Started>,
    gate: &'s G,
    ended: &'s Ended,
    tries: u64,
) -> Vec<Started>
    requires loads { length loads.items ≡ length ports.items }
    requires room { (room.items ≡ []) × (length ports.items ≤ vec_capacity room) }
    ensures ports { map promised_port result.items ≡ ports.items }
    ensures loads { map promised_load result.items ≡ map packets_of loads.items }
    ensures kept { All (HasKept tries) result.items }
{
    let mut started = room;
    let mut loads = loads.into_iter();
    for port in ports {
        let Some(load) = loads.next() else {
            unreachable!()
        };
        started.push_reserved(start(scope, port, load, gate, ended, tries));
    }
    started
}

// What a sender hands back, once it has ended.
fn join<R: Threads>(rt: &R, sender: Started) -> Sent
    ensures { (tries : ℕ) → HasKept tries sender → Offered tries result.ran (promised_port sender) (promised_load sender) result.port result.given_up }
{
    let Started {
        promise: _promise,
        work,
    } = sender;
    match work {
        Ok(thread) => thread.join(rt),
        Err(sent) => sent,
    }
}

// What the senders hand back, once each has ended.
fn join_all<R: Threads>(rt: &R, started: Vec<Started>, room: Vec<Sent>) -> Vec<Sent>
    requires room { (room.items ≡ []) × (length started.items ≤ vec_capacity room) }
    ensures count { length result.items ≡ length started.items }
    ensures each { (tries : ℕ) → All (HasKept tries) started.items → AllOffered tries (map promised_port started.items) (map promised_load started.items) result.items }
{
    let mut sent = room;
    for sender in started {
        sent.push_reserved(join(rt, sender));
    }
    sent
}

/// The times of turns: the first, and how many nanoseconds come between two.
#[derive(Clone, Copy)]
pub(crate) struct TurnMoments {
    pub(crate) start: Moment,
    pub(crate) step: u64,
}

// Takes turns until so many senders have ended.
fn take_turns<P: Ledger, B: Ledger, R: Wait>(
    rt: &R,
    alloc: Global,
    booked: &Mutex<Booked<P, B>>,
    drain: &mut Drain<P, B>,
    ended: &Ended,
    senders: u64,
    pace: TurnMoments,
)
    ensures rings { map ring_id drain.new.rings ≡ map ring_id drain.old.rings }
    ensures book { drain.new.board.book ≡ drain.old.board.book }
    ensures turned { HasTurned pace.start pace.step drain.old drain.new }
{
    let start = pace.start.ns();
    let step = pace.step;
    let mut nth = 0u64;
    for _turn in rt.forever() {
        if ended.count() >= senders {
            return;
        }
        // A refused turn is passed over.
        let _turn = drain.turn(rt, alloc, booked, moment_of(start, step, nth), MOST);
        nth = nth.saturating_add(1);
    }
    unreachable!()
}

// The time of turn k, from 0: k steps after the first, or the latest time.
fn moment_of(start: u64, step: u64, turn: u64) -> Moment
    ensures { result ≡ min (start + turn * step) (2 ^ 62) }
{
    let after = turn.saturating_mul(step);
    match Moment::new(start.saturating_add(after)) {
        Some(moment) => moment,
        None => latest(),
    }
}

// The latest time.
fn latest() -> Moment
    ensures { result ≡ 2 ^ 62 }
{
    match Moment::new(Moment::MAX) {
        Some(moment) => moment,
        None => unreachable!(),
    }
}

// Runs the senders while the drain takes turns.
fn in_scope<'s, E, P: Ledger, B: Ledger, G: Gate + Sync, R: Threads + Wait>(
    scope: &Scope<'s, E>,
    rt: &R,
    alloc: Global,
    booked: &Mutex<Booked<P, B>>,
    drain: Drain<P, B>,
    ports: Vec<Port>,
    loads: Vec<Vec<Packet>>,
    room: SenderRoom,
    gate: &'s G,
    ended: &'s Ended,
    pace: TurnMoments,
    tries: u64,
) -> (Drain<P, B>, Vec<Sent>)
    requires loads { length loads.items ≡ length ports.items }
    requires room { IsRoomFor (length ports.items) room }
    ensures rings { map ring_id result.0.rings ≡ map ring_id drain.rings }
    ensures book { result.0.board.book ≡ drain.board.book }
    ensures turned { HasTurned pace.start pace.step drain result.0 }
    ensures drove { Drove tries ports.items (map packets_of loads.items) result.1.items }
{
    let mut drain = drain;
    let SenderRoom { started, sent } = room;
    let started = start_all(scope, ports, loads, started, gate, ended, tries);
    let senders = started.len() as u64;
    take_turns(rt, alloc, booked, &mut drain, ended, senders, pace);
    let sent = join_all(rt, started, sent);
    (drain, sent)
}
