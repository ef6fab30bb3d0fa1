//! Ports, the drain and gauges on one thread.
ghost use Rattle.std.specs.Prelude.{◌≡◌, ◌≤◌, ◌<◌, length, map, All};
ghost use Rattle.q_ports.specs.Placed.{ring_of_port};
ghost use Rattle.q_ports.specs.Rings.{ring_id};
ghost use Rattle.q_ports.specs.Rows.{new_gauge, shown_on, GaugeSeen};

use crate::common::{
    assert_count, assert_full, assert_totals, hundreds, offer_at, packet, settled_at, turn,
};
use crate::rows::NO_ROW;
use crate::unbooked::{Unbooked, end, fresh, last_row};
use q_device::{Polled, Row};
use q_packet::{Moment, Packet};
use q_ports::{Booked, Drain, Gauge, Port, Turn};
use std::alloc::Global;
use std::marker::Brand;
use std::process::Abort;
use std::sync::ledger::Ledger;
use std::sync::{Mutex, Wait};
use std::test::Fail;

#[test]
fn ports_on_one_thread(rt: HostRuntime) -> Result<(), Fail> {
    let alloc = rt.alloc();
    let given = packet(77).expect(&rt, "a packet");
    let first = fresh(&rt, alloc, 1000, 0);
    ring_of_one::<Brand, Brand, _>(&rt, alloc, first, given);
    for count in &[2usize, 4] {
        let unbooked = fresh(&rt, alloc, 1000, 0);
        going_round::<Brand, Brand, _>(&rt, alloc, unbooked, *count, given);
    }
    Ok(())
}

// A turn of 1024, the most that it may take, takes and sends a ring of as many.
#[test]
fn a_turn_takes_1024_packets(rt: HostRuntime) -> Result<(), Fail> {
    let alloc = rt.alloc();
    let given = packet(77).expect(&rt, "a packet");
    let packets = vec![in alloc; given; 1024]?;
    let unbooked = fresh(&rt, alloc, 2000, 0);
    long_turns::<Brand, Brand, _>(&rt, alloc, unbooked, packets, 1);
    Ok(())
}

// More turns of 1024 than bring 2^20 packets: neither a port nor a drain nor what gauges see ends there.
const TURNS: u64 = 1100;

#[test]
fn more_than_a_million_go_through_a_drain(rt: HostRuntime) -> Result<(), Fail> {
    let alloc = rt.alloc();
    let given = packet(77).expect(&rt, "a packet");
    let packets = vec![in alloc; given; 1024]?;
    let unbooked = fresh(&rt, alloc, 2000, 0);
    long_turns::<Brand, Brand, _>(&rt, alloc, unbooked, packets, TURNS);
    Ok(())
}

// Fills a ring for each of so many turns, which takes and sends all that waits, and which a gauge shows.
fn long_turns<P: Ledger, B: Ledger, R: Wait + Abort>(
    rt: &R,
    alloc: Global,
    unbooked: Unbooked,
    packets: Vec<Packet>,
    turns: u64,
)
    requires { (unbooked.packets.name ≡ P.name) × (P.parts ≡ 65) × (unbooked.bytes.name ≡ B.name) × (B.parts ≡ 65) }
{
    let (booked, mut drain, mut ports, mut gauges) = unbooked.opened::<P, B, R>(
        rt,
        alloc,
        (1, 1024, 1),
    );
    let mut shown = 0u64;
    for _turn in 0..turns {
        place_all(rt, &mut ports, &packets);
        shown = shown.saturating_add(1024);
        assert_tells(rt, alloc, &booked, &mut drain, 1024, 1024);
        assert_shows_first(rt, &mut gauges, shown);
    }
    end(rt, booked, drain, ports, gauges);
}

// Places packets at the first port, in whose ring there is room for all.
fn place_all<R: Abort>(rt: &R, ports: &mut Vec<Port>, packets: &Vec<Packet>) {
    assert!(rt; !ports.is_empty());
    assert_count(
        rt,
        ports[0].offer_many(packets) as u64,
        packets.len() as u64,
    );
}

// As many ports as there may be, with the longest rings, and as many gauges.
#[test]
fn all_ports_of_the_longest_rings(rt: HostRuntime) -> Result<(), Fail> {
    let alloc = rt.alloc();
    let given = packet(77).expect(&rt, "a packet");
    let unbooked = fresh(&rt, alloc, 1000, 0);
    gauged::<Brand, Brand, _>(&rt, alloc, unbooked, (64, 65_536, 16), given);
    Ok(())
}

// As many gauges as there may be, and none: each shows the turns before, learns of one more, and shows it.
#[test]
fn each_number_of_gauges_reads_and_learns(rt: HostRuntime) -> Result<(), Fail> {
    let alloc = rt.alloc();
    let given = packet(77).expect(&rt, "a packet");
    for count in 0..17usize {
        let unbooked = fresh(&rt, alloc, 1000, 0);
        gauged::<Brand, Brand, _>(&rt, alloc, unbooked, (1, 1, count), given);
    }
    Ok(())
}

// Opens so many ports with rings of so many places, and so many gauges, for each of which it takes a turn.
fn gauged<P: Ledger, B: Ledger, R: Wait + Abort>(
    rt: &R,
    alloc: Global,
    unbooked: Unbooked,
    counts: (usize, usize, usize),
    given: Packet,
)
    requires { (unbooked.packets.name ≡ P.name) × (P.parts ≡ 65) × (unbooked.bytes.name ≡ B.name) × (B.parts ≡ 65) }
{
    let (booked, mut drain, mut ports, gauges) = unbooked.opened::<P, B, R>(rt, alloc, counts);
    let (opened, read) = (ports.len() as u64, gauges.len() as u64);
    read_each(rt, alloc, &booked, &mut drain, &mut ports, gauges, given);
    end(rt, booked, drain, ports, Vec::new(alloc));
    assert_count(rt, opened, counts.0 as u64);
    assert_count(rt, read, counts.2 as u64);
}

// A packet is placed and a turn taken for each gauge.
fn read_each<P: Ledger, B: Ledger, R: Wait + Abort>(
    rt: &R,
    alloc: Global,
    booked: &Mutex<Booked<P, B>>,
    drain: &mut Drain<P, B>,
    ports: &mut Vec<Port>,
    gauges: Vec<Gauge>,
    given: Packet,
)
    requires { All (λ (g : GaugeSeen). g ≡ new_gauge (shown_on drain.old.board)) gauges.items }
{
    let mut number = 0u64;
    for gauge in gauges {
        offer_at_each(rt, ports, 1, given);
        let before = number;
        number = number.saturating_add(1);
        read_and_learn(rt, alloc, booked, drain, gauge, (before, number));
    }
}

// The gauge shows so many packets before a turn, and so many after it.
fn read_and_learn<P: Ledger, B: Ledger, R: Wait + Abort>(
    rt: &R,
    alloc: Global,
    booked: &Mutex<Booked<P, B>>,
    drain: &mut Drain<P, B>,
    gauge: Gauge,
    shown: (u64, u64),
)
    requires { gauge.book ≡ drain.old.board.book }
    ensures rings { map ring_id drain.new.rings ≡ map ring_id drain.old.rings }
    ensures book { drain.new.board.book ≡ drain.old.board.book }
{
    let mut gauge = gauge;
    assert_shows(rt, &mut gauge, shown.0);
    turn_and_learn(rt, alloc, booked, drain, &mut gauge, shown.1);
    assert_shows(rt, &mut gauge, shown.1);
}

// A ring of one gives the second packet back as it was given, and takes it after a turn. The gauge reads the opening row, and
// once it has learnt of the turn the row after it.
fn ring_of_one<P: Ledger, B: Ledger, R: Wait + Abort>(
    rt: &R,
    alloc: Global,
    unbooked: Unbooked,
    given: Packet,
)
    requires { (unbooked.packets.name ≡ P.name) × (P.parts ≡ 65) × (unbooked.bytes.name ≡ B.name) × (B.parts ≡ 65) }
{
    let (booked, mut drain, mut ports, mut gauges) = unbooked.opened::<P, B, R>(
        rt,
        alloc,
        (1, 1, 1),
    );
    place_two(
        rt,
        alloc,
        &booked,
        &mut drain,
        &mut ports,
        &mut gauges,
        given,
    );
    let settled = settled_at(rt, &booked, drain, ports, 0);
    let (row, polled) = left(rt, &booked);
    let last = last_row(rt, booked, gauges);
    assert_eq!(rt; settled, Some(hundreds(2)));
    assert_left(rt, &row, &polled);
    assert_totals(rt, last.sent, hundreds(2));
}

// Places a packet, which fills the ring, and another one after a turn.
fn place_two<P: Ledger, B: Ledger, R: Wait + Abort>(
    rt: &R,
    alloc: Global,
    booked: &Mutex<Booked<P, B>>,
    drain: &mut Drain<P, B>,
    ports: &mut Vec<Port>,
    gauges: &mut Vec<Gauge>,
    given: Packet,
)
    requires gauges { All (λ (g : GaugeSeen). g ≡ new_gauge (shown_on drain.old.board)) gauges.old.items }
    requires one { 0 < length ports.old.items }
    ensures drain { map ring_id drain.new.rings ≡ map ring_id drain.old.rings }
    ensures ports { map ring_of_port ports.new.items ≡ map ring_of_port ports.old.items }
{
    let Some(gauge) = gauges.pop() else {
        panic!(rt; "a gauge");
    };
    offer_under_lock(rt, booked, ports, 0, given);
    assert_full(rt, ports, given);
    read_and_learn(rt, alloc, booked, drain, gauge, (0, 1));
    offer_under_lock(rt, booked, ports, 0, given);
}

// The row of the device, and what it gives next.
fn left<P: Ledger, B: Ledger, R: Wait>(rt: &R, booked: &Mutex<Booked<P, B>>) -> (Row, Polled) {
    let mut locked = booked.lock(rt);
    (locked.totals(), locked.poll(Moment::zero()))
}

// Of two packets the first was sent, and the second is queued.
fn assert_left<R: Abort>(rt: &R, row: &Row, polled: &Polled) {
    assert_totals(rt, row.arrived, hundreds(2));
    assert_totals(rt, row.sent, hundreds(1));
    assert_totals(rt, row.queued, hundreds(1));
    let Polled::Packet(second) = polled else {
        panic!(rt; "a packet waits");
    };
    assert_count(rt, second.number, 2);
}

// A packet is placed while the test holds the lock.
fn offer_under_lock<P: Ledger, B: Ledger, R: Wait + Abort>(
    rt: &R,
    booked: &Mutex<Booked<P, B>>,
    ports: &mut Vec<Port>,
    at: usize,
    given: Packet,
)
    requires { at < length ports.old.items }
    ensures rings { map ring_of_port ports.new.items ≡ map ring_of_port ports.old.items }
    ensures count { length ports.new.items ≡ length ports.old.items }
{
    let _locked = booked.lock(rt);
    assert!(rt; offer_at(ports, at, given).is_ok());
}

// The gauge reads a row in which so many packets have arrived and were sent, and nothing else is counted.
fn assert_shows<R: Abort>(rt: &R, gauge: &mut Gauge, packets: u64)
    ensures { gauge.new.book ≡ gauge.old.book }
{
    let row = gauge.read().expect(rt, "a row");
    let (arrived, sent) = (hundreds(packets), hundreds(packets));
    let wanted = Row {
        arrived,
        sent,
        ..NO_ROW
    };
    assert_eq!(rt; row, wanted);
}

// The first gauge reads such a row.
fn assert_shows_first<R: Abort>(rt: &R, gauges: &mut Vec<Gauge>, packets: u64) {
    let gauge = gauges.get_mut(0).expect(rt, "a gauge");
    assert_shows(rt, gauge, packets);
}

// A turn takes and sends the one packet that waits, which has this number, and the gauge learns of it.
fn turn_and_learn<P: Ledger, B: Ledger, R: Wait + Abort>(
    rt: &R,
    alloc: Global,
    booked: &Mutex<Booked<P, B>>,
    drain: &mut Drain<P, B>,
    gauge: &mut Gauge,
    number: u64,
)
    requires { gauge.old.book ≡ drain.old.board.book }
    ensures rings { map ring_id drain.new.rings ≡ map ring_id drain.old.rings }
    ensures book { drain.new.board.book ≡ drain.old.board.book }
{
    let turn = turn(rt, alloc, booked, drain, 0, 1);
    assert_sends(rt, &turn, &[(0, number)]);
    let Turn { told, .. } = turn;
    match told {
        Some(told) => gauge.learn(told),
        None => panic!(rt; "told"),
    }
}

// A turn has taken and sent these packets: of each the port, and its number there.
fn assert_sends<R: Abort>(rt: &R, turn: &Turn, wanted: &[(u32, u64)]) {
    assert_count(rt, turn.taken as u64, wanted.len() as u64);
    assert_count(rt, turn.sent.len() as u64, wanted.len() as u64);
    assert!(rt; !turn.memory);
    for at in 0..wanted.len() {
        let packet = turn.sent.get(at).expect(rt, "a packet");
        let (port, number) = wanted[at];
        assert_count(rt, packet.port as u64, port as u64);
        assert_count(rt, packet.number, number);
    }
}

// Opens so many ports, round which turns go.
fn going_round<P: Ledger, B: Ledger, R: Wait + Abort>(
    rt: &R,
    alloc: Global,
    unbooked: Unbooked,
    count: usize,
    given: Packet,
)
    requires { (unbooked.packets.name ≡ P.name) × (P.parts ≡ 65) × (unbooked.bytes.name ≡ B.name) × (B.parts ≡ 65) }
{
    let (booked, mut drain, mut ports, mut gauges) = unbooked.opened::<P, B, R>(
        rt,
        alloc,
        (count, 4, 1),
    );
    assert_goes_on(rt, alloc, &booked, &mut drain, &mut ports, given);
    assert_all_tell(
        rt,
        alloc,
        &booked,
        &mut drain,
        &mut ports,
        &mut gauges,
        given,
    );
    end(rt, booked, drain, ports, gauges);
}

// Each of 100 turns reports, and a gauge that learns nothing goes on all the same.
fn assert_all_tell<P: Ledger, B: Ledger, R: Wait + Abort>(
    rt: &R,
    alloc: Global,
    booked: &Mutex<Booked<P, B>>,
    drain: &mut Drain<P, B>,
    ports: &mut Vec<Port>,
    gauges: &mut Vec<Gauge>,
    given: Packet,
) {
    let count = ports.len();
    let mut shown = 5u64;
    for _turn in 0..100 {
        offer_at_each(rt, ports, count, given);
        shown = shown.saturating_add(count as u64);
        assert_tells(rt, alloc, booked, drain, 64, count);
        assert_shows_first(rt, gauges, shown);
    }
    // A turn that finds nothing reports the same row once more.
    assert_tells(rt, alloc, booked, drain, 64, 0);
    assert_tells(rt, alloc, booked, drain, 64, 0);
    assert_shows_first(rt, gauges, shown);
}

// What turns that go on round the ports take and send, one after the other: of each packet the port, and its number there.
const SENT: [(u32, u64); 5] = [(0, 1), (1, 1), (0, 2), (1, 2), (0, 3)];

// Ports 0 and 1 with two packets each: a turn of three takes one from each in turn, the last one on the way round. So the next turn
// begins at port 1, though a packet waits at port 0 again.
fn assert_goes_on<P: Ledger, B: Ledger, R: Wait + Abort>(
    rt: &R,
    alloc: Global,
    booked: &Mutex<Booked<P, B>>,
    drain: &mut Drain<P, B>,
    ports: &mut Vec<Port>,
    given: Packet,
) {
    offer_at_each(rt, ports, 2, given);
    offer_at_each(rt, ports, 2, given);
    assert_turn(rt, alloc, booked, drain, &SENT[..3]);
    offer_at_each(rt, ports, 1, given);
    assert_turn(rt, alloc, booked, drain, &SENT[3..4]);
    assert_turn(rt, alloc, booked, drain, &SENT[4..]);
}

// Places a packet at each of the first ports.
fn offer_at_each<R: Abort>(rt: &R, ports: &mut Vec<Port>, count: usize, given: Packet) {
    for at in 0..count {
        assert!(rt; at < ports.len() && offer_at(ports, at, given).is_ok());
    }
}

// A turn takes and sends so many packets, and reports.
fn assert_tells<P: Ledger, B: Ledger, R: Wait + Abort>(
    rt: &R,
    alloc: Global,
    booked: &Mutex<Booked<P, B>>,
    drain: &mut Drain<P, B>,
    most: usize,
    count: usize,
)
    requires { (1 ≤ most) × (most ≤ 1024) }
{
    let turn = turn(rt, alloc, booked, drain, 0, most);
    assert_count(rt, turn.taken as u64, count as u64);
    assert_count(rt, turn.sent.len() as u64, count as u64);
    assert!(rt; turn.told.is_some());
}

// A turn of as many takes and sends these packets.
fn assert_turn<P: Ledger, B: Ledger, R: Wait + Abort>(
    rt: &R,
    alloc: Global,
    booked: &Mutex<Booked<P, B>>,
    drain: &mut Drain<P, B>,
    wanted: &[(u32, u64)],
)
    requires { (1 ≤ length wanted.now) × (length wanted.now ≤ 1024) }
{
    let turn = turn(rt, alloc, booked, drain, 0, wanted.len());
    assert_sends(rt, &turn, wanted);
}
