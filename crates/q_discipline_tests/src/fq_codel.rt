//! fq_codel: the range of its settings, and scripts of calls on one beside plain lists.
use crate::twins::Twins;
use q_fqcodel::Settings;
use q_packet::{Cause, Ecn, FlowKey, Moment, Packet};
use std::alloc::Global;
use std::test::Fail;

const MS: u64 = 1_000_000;

// A call, and what both bodies have to answer. Times are in nanoseconds, lengths in bytes.
#[derive(Clone, Copy)]
enum Call {
    // The length and the hash of a packet that is put at time 0, and whether it is itself lost. Packets are numbered from 1.
    Put(u16, u32, bool),
    // Ten packets of 1000 bytes with this codepoint are put in flow 0.
    PutTen(Ecn),
    // The number of the packet that is sent unmarked at time 0; 0 where none is.
    Take(u64),
    // The time of a take, the number of the packet that is sent, 0 where none is, and whether it is marked.
    TakeAt(u64, u64, bool),
    // The number of the packet that was lost first of those that wait to be reaped, and why.
    Lost(u64, Cause),
    // How many losses wait.
    Losses(u64),
    // The packets in all flows, and their bytes.
    Queued(u64, u64),
    // The flows that are listed as new, and as old.
    Listed(usize, usize),
    // A place of the old list, the flow that is there, and its credits.
    Old(usize, u32, i64),
    Purge,
    // The limit and the quantum from then on.
    Change(u32, u32),
}

fn packet(number: u64, len: u16, hash: u32, ecn: Ecn) -> Result<Packet, Fail> {
    let packet = Packet::new(0, number, 0, len, FlowKey::zero(), hash, 0, ecn);
    Ok(packet.ok_or("a packet in range")?)
}

// An fq_codel under test, and how many packets were put.
#[derive(Drop)]
struct Bench {
    twins: Twins,
    puts: u64,
}

impl Bench {
    // Puts a packet at time 0, and says whether it is itself lost.
    fn put(&mut self, len: u16, hash: u32, ecn: Ecn) -> Result<bool, Fail> {
        self.puts = self.puts.saturating_add(1);
        let packet = packet(self.puts, len, hash, ecn)?;
        self.twins.put(packet, Moment::zero())
    }

    fn put_ten(&mut self, ecn: Ecn) -> Result<bool, Fail> {
        for _ in 0..10 {
            if self.put(1000, 0, ecn)? {
                return Ok(false);
            }
        }
        Ok(true)
    }

    // Whether this packet is sent, marked or not; with number 0 none.
    fn gives(&mut self, ns: u64, number: u64, marked: bool) -> Result<bool, Fail> {
        let now = Moment::new(ns).ok_or("a moment in range")?;
        Ok(match self.twins.take(now)? {
            Some(taken) => {
                let packet = taken.packet;
                packet.number == number && taken.marked == marked
            }
            None => number == 0,
        })
    }

    fn has_lost(&mut self, number: u64, cause: Cause) -> Result<bool, Fail> {
        Ok(match self.twins.reap()? {
            Some(loss) => {
                let packet = loss.packet;
                packet.number == number && loss.cause == cause
            }
            None => false,
        })
    }

    fn change(&mut self, limit: u32, quantum: u32) -> Result<bool, Fail> {
        let mut settings = self.twins.settings();
        if limit < 1 || quantum < 1 {
            return Ok(false);
        }
        settings.limit = limit;
        settings.quantum = quantum;
        self.twins.change(settings)?;
        Ok(true)
    }

    // Whether a call answers as it has to.
    fn answers(&mut self, call: Call) -> Result<bool, Fail> {
        match call {
            Call::Put(len, hash, is_lost) => Ok(self.put(len, hash, Ecn::NotEct)? == is_lost),
            Call::PutTen(ecn) => self.put_ten(ecn),
            Call::Take(number) => self.gives(0, number, false),
            Call::TakeAt(ns, number, marked) => self.gives(ns, number, marked),
            Call::Lost(number, cause) => self.has_lost(number, cause),
            Call::Losses(count) => Ok(self.twins.losses()? == count),
            Call::Queued(packets, bytes) => Ok(self.twins.queued()? == (packets, bytes)),
            Call::Listed(new, old) => Ok(self.twins.listed()? == (new, old)),
            Call::Old(place, flow, credits) => {
                Ok(self.twins.old_flow(place) == Some((flow, credits)))
            }
            Call::Purge => {
                self.twins.purge()?;
                Ok(true)
            }
            Call::Change(limit, quantum) => self.change(limit, quantum),
        }
    }

    // The place of the first call that is not answered as it has to be.
    fn first_wrong(&mut self, calls: &[Call]) -> Result<Option<usize>, Fail> {
        let mut place = 0usize;
        for call in calls {
            if !self.answers(*call)? {
                return Ok(Some(place));
            }
            place = place.saturating_add(1);
        }
        Ok(None)
    }
}

// The limit, the flows, the quantum and the batch: what the scripts choose of the settings.
type Counts = (u32, u32, u32, u32);

// As the default settings have them.
const USUAL: Counts = (10_240, 1024, 1514, 1);

// The default settings but for these.
fn settings_with((limit, flows, quantum, drop_batch): Counts) -> Option<Settings> {
    let usual = Settings::defaults(1500);
    Settings::new(
        limit,
        flows,
        quantum,
        usual.target,
        usual.interval,
        usual.ecn,
        drop_batch,
        usual.mtu,
    )
}

// Plays these calls on an fq_codel without packets. This alone drops one, in one place.
fn first_wrong(alloc: Global, counts: Counts, calls: &[Call]) -> Result<Option<usize>, Fail> {
    let settings = settings_with(counts).ok_or("settings in range")?;
    let twins = Twins::new(alloc, settings)?;
    Bench { twins, puts: 0 }.first_wrong(calls)
}

// Settings of 0 but for these, in the order of the fields from `limit` to `interval`, then `drop_batch` and `mtu`.
fn is_in_range(counts: (u32, u32, u32), times: (u64, u64), drop_batch: u32, mtu: u16) -> bool {
    Settings::new(
        counts.0, counts.1, counts.2, times.0, times.1, false, drop_batch, mtu,
    )
    .is_some()
}

// The longest target and interval.
const MOST: u64 = 1_000_000_000_000;
// The settings, in the order of `is_in_range`, and whether they are.
const RANGES: &[((u32, u32, u32), (u64, u64), u32, u16, bool)] = &[
    ((1, 1, 1), (0, 1000), 1, 1, true),
    (
        (u32::MAX, 65536, u32::MAX),
        (MOST, MOST),
        65536,
        u16::MAX,
        true,
    ),
    ((0, 1, 1), (0, 1000), 1, 1, false),
    ((1, 0, 1), (0, 1000), 1, 1, false),
    ((1, 65537, 1), (0, 1000), 1, 1, false),
    ((1, 1, 0), (0, 1000), 1, 1, false),
    ((1, 1, 1), (MOST + 1, 1000), 1, 1, false),
    ((1, 1, 1), (0, 999), 1, 1, false),
    ((1, 1, 1), (0, MOST + 1), 1, 1, false),
    ((1, 1, 1), (0, 1000), 0, 1, false),
    ((1, 1, 1), (0, 1000), 65537, 1, false),
    ((1, 1, 1), (0, 1000), 1, 0, false),
];

#[test]
fn settings_are_in_range(rt: HostRuntime) {
    assert!(rt; settings_with(USUAL) == Some(Settings::defaults(1500)));
    for (counts, times, drop_batch, mtu, is_fit) in RANGES {
        assert!(rt; is_in_range(*counts, *times, *drop_batch, *mtu) == *is_fit);
    }
}

// A name, the settings, and the calls of a script.
const SCRIPTS: &[(&str, Counts, &[Call])] = &[
    // Flow 1 is sent its packet before flow 0 its third: flow 0 has used up its first quantum of 1514 bytes.
    (
        "a new flow passes to old",
        USUAL,
        &[
            Call::Put(1000, 0, false),
            Call::Put(1000, 0, false),
            Call::Put(1000, 0, false),
            Call::Put(100, 1, false),
            Call::Take(1),
            Call::Take(2),
            Call::Take(4),
            Call::Take(3),
            Call::Take(0),
            Call::Losses(0),
        ],
    ),
    // With a quantum of 1000 flow 0 has none left after its first packet. The fourth take finds no packet, and leaves both lists empty.
    (
        "credits of 0 and 900",
        (10_240, 1024, 1000, 1),
        &[
            Call::Put(1000, 0, false),
            Call::Put(1000, 0, false),
            Call::Put(100, 1, false),
            Call::Listed(2, 0),
            Call::Take(1),
            Call::Take(3),
            Call::Listed(1, 1),
            Call::Take(2),
            Call::Listed(0, 2),
            Call::Old(0, 0, 0),
            Call::Old(1, 1, 900),
            Call::Take(0),
            Call::Listed(0, 0),
            Call::Take(0),
            Call::Losses(0),
        ],
    ),
    // The same, and then packets in both flows: flow 1 has 900 credits to the byte, and flow 0 a whole quantum after the one that it has to get first.
    (
        "credits to the byte",
        (10_240, 1024, 1000, 1),
        &[
            Call::Put(1000, 0, false),
            Call::Put(1000, 0, false),
            Call::Put(100, 1, false),
            Call::Take(1),
            Call::Take(3),
            Call::Take(2),
            Call::Put(999, 0, false),
            Call::Put(1, 0, false),
            Call::Put(1, 0, false),
            Call::Put(899, 1, false),
            Call::Put(1, 1, false),
            Call::Put(1, 1, false),
            Call::Take(7),
            Call::Take(8),
            Call::Take(4),
            Call::Take(5),
            Call::Take(9),
            Call::Take(6),
            Call::Take(0),
            Call::Losses(0),
        ],
    ),
    // Many rounds pass in one take, where a quantum is a byte; and there is a flow for each hash of 16 bits.
    (
        "a quantum of 1 and 65536 flows",
        (10_240, 65536, 1, 1),
        &[
            Call::Put(100, 65535, false),
            Call::Put(100, 65535, false),
            Call::Put(40, 0, false),
            Call::Put(1, 65536, false),
            Call::Take(1),
            Call::Take(3),
            Call::Take(4),
            Call::Take(2),
            Call::Take(0),
            Call::Losses(0),
        ],
    ),
    (
        "the fat flow loses its first packet",
        (1, 1024, 1514, 1),
        &[
            Call::Put(100, 0, false),
            Call::Put(200, 0, false),
            Call::Take(2),
            Call::Take(0),
            Call::Lost(1, Cause::FatFlow),
            Call::Losses(0),
        ],
    ),
    // Flows 3 and 7 have 300 bytes each: flow 3 is the fat one.
    (
        "a tie is broken to the lower index",
        (2, 1024, 1514, 1),
        &[
            Call::Put(300, 7, false),
            Call::Put(100, 3, false),
            Call::Put(200, 3, false),
            Call::Take(1),
            Call::Take(3),
            Call::Take(0),
            Call::Lost(2, Cause::FatFlow),
            Call::Losses(0),
        ],
    ),
    (
        "a batch is lost at once",
        (3, 1024, 1514, 2),
        &[
            Call::Put(500, 0, false),
            Call::Put(500, 0, false),
            Call::Put(500, 0, false),
            Call::Put(100, 1, false),
            Call::Take(3),
            Call::Take(4),
            Call::Take(0),
            Call::Lost(1, Cause::FatFlow),
            Call::Lost(2, Cause::FatFlow),
            Call::Losses(0),
        ],
    ),
    (
        "a batch leaves one packet",
        (1, 1024, 1514, 10),
        &[
            Call::Put(100, 0, false),
            Call::Put(200, 0, false),
            Call::Take(2),
            Call::Take(0),
            Call::Lost(1, Cause::FatFlow),
            Call::Losses(0),
        ],
    ),
    // The fat flow is the newcomer's, and is lost whole.
    (
        "a batch may take the newcomer",
        (2, 1024, 1514, 3),
        &[
            Call::Put(50, 0, false),
            Call::Put(100, 1, false),
            Call::Put(100, 1, true),
            Call::Take(1),
            Call::Take(0),
            Call::Lost(2, Cause::FatFlow),
            Call::Lost(3, Cause::FatFlow),
            Call::Losses(0),
        ],
    ),
    (
        "CoDel drops within a flow",
        USUAL,
        &[
            Call::PutTen(Ecn::NotEct),
            Call::TakeAt(10 * MS, 1, false),
            Call::TakeAt(110 * MS, 3, false),
            Call::TakeAt(210 * MS, 5, false),
            Call::TakeAt(280_710_677, 6, false),
            Call::TakeAt(280_710_678, 8, false),
            Call::TakeAt(338_445_704, 9, false),
            Call::TakeAt(338_445_704, 10, false),
            Call::TakeAt(338_445_704, 0, false),
            Call::Lost(2, Cause::CoDel),
            Call::Lost(4, Cause::CoDel),
            Call::Lost(7, Cause::CoDel),
            Call::Losses(0),
        ],
    ),
    (
        "CoDel marks within a flow",
        USUAL,
        &[
            Call::PutTen(Ecn::Ect0),
            Call::TakeAt(10 * MS, 1, false),
            Call::TakeAt(110 * MS, 2, true),
            Call::TakeAt(210 * MS, 3, true),
            Call::TakeAt(280_710_677, 4, false),
            Call::TakeAt(280_710_678, 5, true),
            Call::TakeAt(338_445_704, 6, true),
            Call::TakeAt(338_445_704, 7, false),
            Call::TakeAt(338_445_704, 8, false),
            Call::Queued(2, 2000),
            Call::Losses(0),
        ],
    ),
    // Flow by flow, with rising index; what is put later is sent.
    (
        "a purge, and use after it",
        USUAL,
        &[
            Call::Put(100, 5, false),
            Call::Put(100, 2, false),
            Call::Put(100, 5, false),
            Call::Queued(3, 300),
            Call::Purge,
            Call::Queued(0, 0),
            Call::Listed(0, 0),
            Call::Lost(2, Cause::Purged),
            Call::Lost(1, Cause::Purged),
            Call::Lost(3, Cause::Purged),
            Call::Losses(0),
            Call::Put(100, 5, false),
            Call::Take(4),
            Call::Take(0),
        ],
    ),
    // A smaller limit loses nothing; the next put loses one packet, though the flows hold three too many.
    (
        "a change loses nothing",
        USUAL,
        &[
            Call::Put(100, 0, false),
            Call::Put(100, 0, false),
            Call::Put(100, 0, false),
            Call::Change(1, 2000),
            Call::Losses(0),
            Call::Put(100, 1, false),
            Call::Lost(1, Cause::FatFlow),
            Call::Losses(0),
            Call::Take(2),
            Call::Take(3),
            Call::Take(4),
            Call::Take(0),
        ],
    ),
];

#[test]
fn scripts_of_flows_are_answered(rt: HostRuntime) -> Result<(), Fail> {
    for (name, counts, calls) in SCRIPTS {
        if let Some(place) = first_wrong(rt.alloc(), *counts, calls)? {
            return Err(Fail::new(format_args!("{name}: call {place}")));
        }
    }
    Ok(())
}
