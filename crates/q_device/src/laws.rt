//! What holds for every device and every replay. Each law is the contract of a function that does nothing.
ghost use Rattle.q_device.specs.DeviceLaws.{ArrivesByArrivals, CountersNeverFall, EveryCounterIsCompared, HasItsMemory, IsLawfulDevice, IsReplayed, IsReplayOfRecorded, TellsItsLosses};
ghost use Rattle.q_device.specs.Laws.{ReplayGoesOn, ShrinkCommutes, ReplayShrinks, EveryReplayIsSound, TotalsAreLawful, EveryReplayTellsAll};
ghost use Rattle.q_device.specs.Sharing.{ClassesSendTheirShares, DeficitsAreBounded, GrantsComeWhereShort, ClassesWakeWithAQuantum, ClassesShareByQuanta, BucketsAreBounded, FlowsGiveTheirShares, FlowsBeginNew, FlowsAreGrantedEvenly};
ghost use Rattle.q_device.specs.Waiting.{EarlyPollsGiveNothing, ReadyPassesEmptyPolls};

pub use crate::buffers::no_more_is_held;
use crate::device::Device;
use q_model::Settings;

/// The replay of a list with one more event is one step after the replay of the list: what happens next depends on the device alone.
pub fn replay_goes_on()
    ensures { ReplayGoesOn }
{}

/// Shrinking and stepping commute: an event makes of a device that keeps totals what it makes of one that keeps whole histories, shrunk, with the
/// same reply and the same losses.
pub fn shrink_commutes()
    ensures { ShrinkCommutes }
{}

/// A replay with totals is the replay with histories, shrunk, with the same replies and losses.
pub fn replay_shrinks()
    ensures { ReplayShrinks }
{}

/// No packet is lost silently, and every node stays lawful, whatever happens to a device.
///
/// For all settings, and for every list of events whose fields are in range: at each node of the tree, and at the device above its root, the
/// packets that arrived are those that were sent, those that were lost, and those that wait there or below, in some order and apart from their ECN
/// codepoints. Every tree is then lawful (`IsLawfulTree` of q_model): active lists are exact, levels are within bursts, no handle occurs twice, and
/// the depth and the number of nodes are bounded. No node has marked more packets than it has sent, dropped or holds.
///
/// What the device has noted is what its caller sees: the packets that the events bring, those that the replies give, and those that are handed
/// back as lost, each in order. With totals the same holds for sums: what arrived is what was sent, refused or dropped, or is queued, in packets
/// and in bytes.
pub fn conserved(settings: Settings)
    ensures histories { EveryReplayIsSound settings }
    ensures totals { TotalsAreLawful settings }
    ensures answers { EveryReplayTellsAll settings }
{
    settings.ranges();
}

/// What a class of a drr sends while it stays backlogged with one quantum over an interval of events, in bytes that its child hands to the drr: its
/// grants times its quantum, and its first deficit less its last. Every deficit is below its quantum and the mtu together, and just before a grant
/// it is below the length of the packet that the child shows. A class that was empty begins with a deficit of one quantum, whatever it had before.
///
/// For all settings, and for every list of events whose fields are in range: polls, arrivals and commands anywhere in the tree.
pub fn class_stretch(settings: Settings)
    ensures share { ClassesSendTheirShares settings }
    ensures bounded { DeficitsAreBounded settings }
    ensures granted { GrantsComeWhereShort settings }
    ensures woken { ClassesWakeWithAQuantum settings }
{
    settings.ranges();
}

/// Two classes of one drr that stay backlogged over an interval of events get equally many grants if they are in the same order in the active list
/// at both ends. Otherwise the one that was first gets one more. The bytes that they send are nearly in the ratio of their quanta: if they send b
/// and c bytes with the quanta q and p, then `b * p` and `c * q` differ by less than `3 * q * p + mtu * (q + p)`.
///
/// Two flows of one fq_codel that stay backlogged are granted equally often if they are in the same order at both ends, in the new list followed by
/// the old one. Otherwise the one that was first is granted once more.
pub fn pair_stretch(settings: Settings)
    ensures classes { ClassesShareByQuanta settings }
    ensures flows { FlowsAreGrantedEvenly settings }
{
    settings.ranges();
}

/// A tbf that keeps its rate and its burst over an interval of events spends, in bytes, at most its burst and what its rate brings in the time
/// between (RFC 2211 has this bound). Its node sends at most that, and the length of the packet that it held at the start.
///
/// For all settings, and for every list of events whose fields are in range: polls, arrivals and commands anywhere in the tree. Bytes are counted
/// in units of 1/(8*10^9), so that nothing is rounded.
pub fn bucket_stretch(settings: Settings)
    ensures bounded { BucketsAreBounded settings }
{
    settings.ranges();
}

/// A flow of an fq_codel that stays backlogged with one quantum over an interval of events gives its node, in bytes, its grants times the quantum,
/// and its first credits less its last. Packets that are lost to CoDel, or since the flow is the fat one, are not among them. A flow that was in
/// neither list begins in the new one, with credits of one quantum.
pub fn flow_stretch(settings: Settings)
    ensures share { FlowsGiveTheirShares settings }
    ensures begins { FlowsBeginNew settings }
{
    settings.ranges();
}

/// A device is the replay of all that happened to it: its tree, clock, counters and queues, and its losses, the first of which were handed out
/// while the others wait. The recorded events are the first of all events. If there were no more than the recorder keeps, the device is the replay
/// of the recorded ones.
pub fn device_is_replayed(device: &Device)
    ensures all { IsReplayed device.now }
    ensures recorded { IsReplayOfRecorded device.now }
{
    device.kept();
}

/// The tree of a device is lawful, and each of its rows is balanced: what arrived is what was sent, refused or dropped, or is queued, in packets
/// and in bytes.
pub fn device_is_lawful(device: &Device)
    ensures { IsLawfulDevice device.now }
{
    device.kept();
}

/// A device counts as many packets as refused or dropped as it has handed out as losses or keeps as losses that wait. As many packets arrived as
/// were sent, are queued, or were lost so.
pub fn device_tells_its_losses(device: &Device)
    ensures { TellsItsLosses device.now }
{
    device.kept();
}

/// A device has a place for the loss of each packet that is queued, besides those of the losses that wait, so losing them needs no memory. The
/// recorder has a place for each event that it keeps. The tree was given no time after the device's clock.
pub fn device_has_its_memory(device: &Device)
    ensures { HasItsMemory device.now }
{
    device.kept();
}

/// Polls before a device is ready give no packet, however many there are and in whatever order, and the device is ready no sooner because of them.
/// If the device was sure of its time, that stays its time.
///
/// A poll is early if its time, or the clock where that is later, is before what [`Device::ready_at`] returns, or if that returns `None`. Each
/// early poll is answered `Later` if something is queued, and otherwise `Idle`.
pub fn early_polls_give_nothing(device: &Device)
    ensures { EarlyPollsGiveNothing device.now }
{
    device.kept();
}

/// After a poll that gives no packet, a device is ready later than that poll, or never. So a program that polls at the times that
/// [`Device::ready_at`] returns, and at no others, gets later and later times until a poll gives a packet.
pub fn ready_passes_empty_polls(device: &Device)
    ensures { ReadyPassesEmptyPolls device.now }
{
    device.kept();
}

/// Whatever happens next to a device, what it counts as arrived grows by the packet of an arrival, and by nothing else.
pub fn arrivals_alone_arrive(device: &Device)
    ensures { ArrivesByArrivals device.now }
{
    device.kept();
}

/// No event lowers what a device counts as arrived, sent, refused, dropped or marked, in packets or in bytes, and no counter is left out of this.
pub fn counters_never_fall()
    ensures events { CountersNeverFall }
    ensures compared { EveryCounterIsCompared }
{}
