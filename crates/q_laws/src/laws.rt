//! What is true of service, of work and of order over every replay of a device. Each law is the contract of a function that does nothing.
ghost use Rattle.q_laws.specs.line.Latest.{LatestIsEnough, LatestIsInTime, LatestIsToldBefore, LatestRisesNoFaster, LatestStandsAsItFills};
ghost use Rattle.q_laws.specs.line.Line.{LimitsAreDelays, LinesLeaveFirst, LinesLeaveInTime};
ghost use Rattle.q_laws.specs.line.Worst.{LinesKeepLimits, WorstIsEnough, WorstIsInTime};
ghost use Rattle.q_laws.specs.nested.NestedTurn.{NestedTurnIsEnough, NestedTurnIsInTime, NestedTurnsAreBounded};
ghost use Rattle.q_laws.specs.new_flow.NewFlow.{NewFlowsGoBefore};
ghost use Rattle.q_laws.specs.new_flow.Rest.{JoiningFlowsAreSpared};
ghost use Rattle.q_laws.specs.order.Order.{FlowsKeepOrder};
ghost use Rattle.q_laws.specs.rate.Delay.{BytesArePaidInTime};
ghost use Rattle.q_laws.specs.rate.Rate.{NeverLateIsDrained, RateIsDelivered, RateIsSpent};
ghost use Rattle.q_laws.specs.share.Calm.{CalmClassesGetTheirParts, CalmClassesWaitAtMost, CalmTurnsAreBounded, ClassesAreCalm};
ghost use Rattle.q_laws.specs.share.Delivered.{LatenessIsTheGreatest, ServiceIsDelivered, ShareIsDelivered, SlackIsTheLaws};
ghost use Rattle.q_laws.specs.share.Handed.{ClassesHandInTime, ClassesLeaveInTime, PollsLeaveHolding};
ghost use Rattle.q_laws.specs.share.InTime.{ClassesShareInTime, SharesMultiply};
ghost use Rattle.q_laws.specs.share.Service.{ClassAgainstAny, ClassesGetTheirParts, FlowAgainstAny, NoFlowStarves, NewFlowFirst};
ghost use Rattle.q_laws.specs.turn.FifoTurn.{FifosWaitAtMost};
ghost use Rattle.q_laws.specs.turn.MostOfTurn.{ClassesWaitAtMost, TurnsAreBounded};
ghost use Rattle.q_laws.specs.turn.Turn.{ClassesWaitTheirTurn};
ghost use Rattle.q_laws.specs.turn.TurnLatest.{LatestTurnIsAnswered, LatestTurnIsEnough, LatestTurnIsInTime, LatestTurnStandsAsItFills};
ghost use Rattle.q_laws.specs.turn.TurnWorst.{TurnIsAnswered, TurnIsEnough, TurnIsInTime, TurnsKeepLimits};
ghost use Rattle.q_laws.specs.work.Work.{BandsAreStrict, WorkIsConserved};

use q_model::Settings;

/// Whatever comes to the other classes of its drr, a class that stays backlogged with one quantum over an interval of events is held up by
/// each of them no longer than by one that stays backlogged too. Another class that is there with one quantum sends at most its first
/// deficit and a quantum for each grant to the first: it may get packets, empty, become active again, and have its child removed or
/// replaced. Where it was not before the first class in the active list, it sends nothing until that one is granted, but for what
/// its deficit is above a quantum. In the quanta of both, what it sends times the quantum of the first is at most what
/// the first sends times its own, and two products of the quanta and a longest packet less a byte times their sum.
///
/// For all settings and every list of events whose fields are in their ranges: polls, arrivals and commands anywhere in the
/// tree. Bytes are those that a class's child hands to the drr, which may hold one packet.
pub fn class_against_any(settings: Settings)
    ensures { ClassAgainstAny settings }
{
    settings.ranges();
}

/// Of all bytes that the classes of a drr send over an interval in which the drr keeps its classes and their quanta, a class that stays backlogged
/// sends at least its share, whatever comes to the others, less a number of bytes that does not grow with the interval. With the quantum q of n
/// classes, whose quanta add up to Q, its share is q/Q, and the number is `(2*q*(Q - q) + (mtu - 1)*((n - 1)*q + (Q - q))) / Q` (`part`).
///
/// One product q*(Q - q) is enough where the class is calm at first: where others are before it in the active list, it has a deficit of a
/// quantum at least (`calm`). It is calm as long as no command has changed its quantum since it was last empty, as it is where a command
/// adds it, whatever comes to it and to the others (`since_empty`).
pub fn least_share(settings: Settings)
    ensures part { ClassesGetTheirParts settings }
    ensures calm { CalmClassesGetTheirParts settings }
    ensures since_empty { ClassesAreCalm settings }
{
    settings.ranges();
}

/// Whatever comes to the other flows of its fq_codel, while a flow stays backlogged each of them gives at most two quanta less a byte for each
/// grant to it, a quantum, and what the other's credits at first let it give, which is those and a longest packet less a byte.
/// A flow that joins anew each time comes near to that, at twice what a backlogged one gets: sparse flows go first (RFC 8290, section
/// 4.2). A flow in neither list at first counts with no credits, and one in the new list gives a quantum less. The quantum stays meanwhile.
///
/// For all settings and every list of events whose fields are in their ranges: polls, arrivals and commands anywhere in the tree. Packets
/// that CoDel or the fat flow loses are not among the bytes.
pub fn flow_against_any(settings: Settings)
    ensures { FlowAgainstAny settings }
{
    settings.ranges();
}

/// Between two grants of a flow of an fq_codel that stays backlogged, each other flow gives at most two quanta and the mtu less two bytes,
/// whatever comes to it, where its credits were at most a quantum at the first of the two; so no flow waits for ever while packets
/// are taken. Credits can be above a quantum only where a command has lowered it, and count then in place of one quantum. From the first
/// of the two grants to the second the quantum stays.
pub fn no_flow_starves(settings: Settings)
    ensures { NoFlowStarves settings }
{
    settings.ranges();
}

/// A flow that joins an fq_codel from neither list goes before all old flows: until it gives a packet, or has none left, only the flows
/// that were in the new list with credits give any, each at most its credits and a longest packet less a byte, whatever comes meanwhile,
/// a command that changes the quantum too.
/// So a sparse flow, as a name lookup, passes the flows of a download (RFC 8290, section 4.2).
pub fn new_flow_first(settings: Settings)
    ensures { NewFlowFirst settings }
{
    settings.ranges();
}

/// CoDel drops nothing of a flow that joins an fq_codel from neither list until it has given a packet, and does not mark that one: so the
/// packet that joined is given, unless it is lost to the fat flow's batch. It is said of what CoDel remembers of the flow, for whatever
/// queues there and whenever its turn comes, at any time of any device: a flow that leaves the lists is forgotten by CoDel, as is one of
/// a new fq_codel.
///
/// For all settings and every list of events whose fields are in their ranges: polls, arrivals and commands anywhere in the tree.
pub fn joining_flow_is_spared(settings: Settings)
    ensures { JoiningFlowsAreSpared settings }
{
    settings.ranges();
}

/// A tbf delivers its rate. Where it keeps its rate and its burst over an interval of events and its level is cut by its burst at none of
/// them, what its bucket pays is what its rate brings in the time between, but for what its level was at first and is at last (`exact`).
///
/// That is so of a tbf at the root with no other below, while something is queued, if no event comes more than `late` nanoseconds late, and
/// its burst has room for a longest packet and for what its rate brings in so much time and a nanosecond more. What comes is late by the
/// time since that which `Device::ready_at` of `q_device` answered when it was last ahead of the clock: so packets that can be given are
/// all taken within that time. What the tbf pays is then within a longest packet of what its rate brings, both ways, between times at
/// which a poll gives nothing (`in_time`). Where no event comes after the time that is answered right before it, none is late
/// (`never_late`).
///
/// For all settings and every list of events whose fields are in their ranges. Bytes are counted in units of 1/(8*10^9), so that
/// nothing is rounded. What the tbf pays for it may still hold, as it may at the first of the two times: one packet.
pub fn rate_is_delivered(settings: Settings)
    ensures exact { RateIsSpent settings }
    ensures in_time { RateIsDelivered settings }
    ensures never_late { NeverLateIsDrained }
{
    settings.ranges();
}

/// When what a tbf at the root has to pay is paid: from any state on, whatever it holds and whenever it was polled before. As long as one
/// of the first `bytes` bytes is left to pay, the next event comes by `begin + ceil(max(0, bytes*8*10^9 - level)/rate)` nanoseconds, or
/// `late` after that, and a poll that gives nothing was before that time. `begin` is the clock of the state and `level` is that of its bucket
/// then, in units of 1/(8*10^9) byte, or what its burst is above `late` nanoseconds of the rate, where that is less: what
/// comes above the burst before a first late poll is lost. So a packet that is among those bytes has left by then.
///
/// No other tbf is below, something stays queued, and the device is polled as [`rate_is_delivered`] says; a poll is due at once where
/// `Device::ready_at` of `q_device` answers no time ahead of the clock in that state. For all settings and every list of events whose fields
/// are in their ranges, whatever comes meanwhile, a command that adds a qdisc or a class beside too.
pub fn bytes_are_paid_in_time(settings: Settings)
    ensures { BytesArePaidInTime settings }
{
    settings.ranges();
}

/// A class of a drr gets its share of a rate, in time. A tbf at the root is over the drr alone, with no other tbf below, and is polled as
/// [`rate_is_delivered`] says; the drr keeps its classes and their quanta. A class that stays backlogged then sends its share of what the rate
/// brings in the time between, less a number of bytes that does not grow: its share of two longest packets, and the bytes by which it may fall
/// short by [`least_share`] (`below`).
///
/// If the child of a class is a drr again, and so on, the shares multiply: a class at the end of such a path down, all of whose classes stay
/// backlogged, sends the product of their shares of what the rate brings, less what it may fall short of at each level, and a longest packet for
/// each drr that may hold one (`nested`).
///
/// For all settings and every list of events whose fields are in their ranges, whatever comes to the other classes. Bytes are counted in units of
/// 1/(8*10^9), times the sums of the quanta, so that nothing is rounded; they are those that the class's child hands to its drr.
pub fn share_in_time(settings: Settings)
    ensures below { ClassesShareInTime settings }
    ensures handed { ClassesHandInTime settings }
    ensures holds { PollsLeaveHolding settings }
    ensures leaves { ClassesLeaveInTime settings }
    ensures nested { SharesMultiply settings }
{
    settings.ranges();
}

/// What `Device::service` of `q_device` answers is what the class gets. As long as the path to it stays as it is, which is the qdiscs on it with
/// the classes and quanta of its drrs, and something is queued in the class, it sends its share of what the rate brings, less the slack
/// (`delivered`): exactly, and of the rate in whole bits a second that `Service::rate` returns. No tbf is added below the one at the root, and the
/// device is polled as [`rate_is_delivered`] says, no later than `Service::late`, which is the greatest lateness that the burst has room for
/// (`late`). The slack is that of [`share_in_time`], rounded up by less than a byte for each drr on the path (`slack`).
///
/// For all settings and every list of events whose fields are in their ranges, whatever comes to other classes.
pub fn service_is_delivered(settings: Settings)
    ensures delivered { ServiceIsDelivered settings }
    ensures slack { SlackIsTheLaws settings }
    ensures late { LatenessIsTheGreatest settings }
{
    settings.ranges();
}

/// The same where a drr is at the root, of all bytes that the children of its classes hand to it, at whatever times the device is polled.
pub fn share_is_delivered(settings: Settings)
    ensures { ShareIsDelivered settings }
{
    settings.ranges();
}

/// A tree without a tbf leaves no link idle that has something to send: a poll gives a packet wherever one is queued, at any node, and is
/// answered `Idle` where nothing is; it is never answered `Later` (tc-prio(8) calls this work-conserving).
///
/// For all settings and every list of events whose fields are in their ranges.
pub fn work_is_conserved(settings: Settings)
    ensures { WorkIsConserved settings }
{
    settings.ranges();
}

/// Where a poll has a prio send a packet of a band, each band before that one gave nothing when it was asked at that time; and if no
/// tbf is there or below, nothing was queued there (tc-prio(8)).
///
/// For all settings and every list of events whose fields are in their ranges. A tbf in an earlier band may hold a packet back, and
/// lets the bands behind it send meanwhile.
pub fn bands_are_strict(settings: Settings)
    ensures { BandsAreStrict settings }
{
    settings.ranges();
}

/// No flow is reordered. Of packets with equal flow key, hash and priority, those that polls give over an interval are some of those that arrive in
/// it, or all, in the order in which they arrived, apart from the ECN codepoint of a mark. No such packet is queued at the start of the interval,
/// at any node, and no command is accepted in it; a refused command changes nothing.
///
/// For all settings and every list of events whose fields are in their ranges, whatever the qdiscs and the other packets are. Packets of the flow
/// that are not given were refused or dropped, or wait. A filter, a class or a qdisc that a command adds may send later packets of a flow along
/// another path, which can be shorter.
pub fn flows_keep_order(settings: Settings)
    ensures { FlowsKeepOrder settings }
{
    settings.ranges();
}

/// Nothing leaves a device before what is in line there: what polls give over an interval, and then what is in line at last, begins with
/// what was in line at first, packet by packet. In line are the packets that leave next in their order whatever arrives: those of a
/// fifo (tc-pfifo(8)), of a prio's first band (tc-prio(8)) and of a tbf's child, where the qdisc there is one of these
/// again, and the packet that a qdisc holds. So before the last of them leaves, only their bytes do.
///
/// No tbf is below the root, since a prio goes on to its next band while one waits; a tbf may be at the root. A command leaves the line as
/// it was, or longer at its end. For all settings and every list of events whose fields are in their ranges.
pub fn lines_leave_first(settings: Settings)
    ensures { LinesLeaveFirst settings }
{
    settings.ranges();
}

/// What is in line below a tbf at the root leaves in time, from any state on: as long as less has been paid than was in line in the first
/// state, the next event comes by `begin + ceil(max(0, bytes*8*10^9 - level)/rate)` nanoseconds, or `late` after that. `bytes` is the
/// length of the line then, `begin` the clock, and `level` what [`bytes_are_paid_in_time`] says (`from_any_state`). So a packet that has just
/// been queued in a pfifo or bfifo there, or in the fifo of a prio's first band, is gone by then, whatever arrives after it and whatever
/// waits behind it. Where no more than `limit` bytes are in line, as in a bfifo right after it took a packet, that is at most
/// `ceil(limit*8*10^9/rate)` nanoseconds after `begin`, whatever the level (`within_a_limit`).
///
/// No other tbf is there, the device is polled as [`rate_is_delivered`] says, and a command leaves the line as it was, or longer at its
/// end. For all settings and every list of events whose fields are in their ranges.
pub fn lines_leave_in_time(settings: Settings)
    ensures from_any_state { LinesLeaveInTime settings }
    ensures within_a_limit { LimitsAreDelays settings }
{
    settings.ranges();
}

/// What `Device::worst` of `q_device` answers of a fifo in line is true of each packet that the fifo keeps. It is last in line then, and the
/// line has no more bytes than the fifo's limit, where a limit of so many packets counts as so many longest ones (`limit`). So the
/// device sends no more than these bytes until the packet has left, itself among them (`enough`).
///
/// Where a tbf is at the root, the next event comes within the nanoseconds that were answered from the packet's arrival, or `late` after
/// that, as long as polls have given fewer bytes than were in line with the packet; and a poll that gives nothing was before that. So the
/// packet has left by then (`in_time`). The device is polled as [`rate_is_delivered`] says, and no later than was answered. The level of the
/// bucket does not matter, nor does what was queued before the packet came, in its place and elsewhere.
///
/// No tbf is added below the root, the one at the root stays as it is, and a command leaves the line as it was, or longer at its end. For
/// all settings and every list of events whose fields are in their ranges.
pub fn worst_is_enough(settings: Settings)
    ensures limit { LinesKeepLimits settings }
    ensures enough { WorstIsEnough settings }
    ensures in_time { WorstIsInTime settings }
{
    settings.ranges();
}

/// What `Device::latest` of `q_device` answers of a fifo in line is true of the packet that was queued there last, from the state on in
/// which it was asked. The bytes that it answers are in line, and polls give these packets before all others (`enough`). Where a tbf is at
/// the root, the next event comes by the time that it answers, or `late` after that, as long as polls have given fewer bytes since; and a
/// poll that gives nothing was before that. So the packet has left by then (`in_time`). The device is polled as [`rate_is_delivered`] says,
/// and no later than was answered; a poll is due at once where `Device::ready_at` answers no time ahead of the clock.
///
/// No tbf is added below the root, the one at the root stays as it is, and a command leaves the line as it was, or longer at its end.
///
/// What it answers of a packet that is to come next, by its length, in a fifo in line or in the fifo of a class of a drr, is what it answers of
/// that packet right after the fifo kept it, if it came at no time ahead of the clock (`told_before`). If it came later, the same bytes are answered
/// then, and a time that is later by no more than that (`rises_no_faster`). In a fifo in line that time is also no later than the first answer or
/// than that which a full bucket would give then (`stands_as_it_fills`), as [`latest_turn_is_enough`] says it of a class of a drr. For all
/// settings and every list of events whose fields are in their ranges.
pub fn latest_is_enough(settings: Settings)
    ensures enough { LatestIsEnough settings }
    ensures in_time { LatestIsInTime settings }
    ensures told_before { LatestIsToldBefore settings }
    ensures rises_no_faster { LatestRisesNoFaster settings }
    ensures stands_as_it_fills { LatestStandsAsItFills settings }
{
    settings.ranges();
}

/// What the classes of a drr send before a packet of one of them, from any state on: at most `bytes_of_turn`, the packet among them. Where it
/// ends within `bytes` bytes of its class, whose quantum is q of Q and whose deficit is d, that is
/// `bytes + ceil(max(0, bytes - d)/q)*(Q - q)` and the deficits of the others, each whole where that class is before this one in the active
/// list, and else as far as it is above its quantum. So the others send no more than their quanta for each grant that this class needs.
///
/// The drr keeps its classes and their quanta, and the class stays backlogged until the packet leaves. For all settings and every list of
/// events whose fields are in their ranges, whatever comes to the other classes. Bytes are those that a class's child hands to the drr.
pub fn classes_wait_their_turn(settings: Settings)
    ensures { ClassesWaitTheirTurn settings }
{
    settings.ranges();
}

/// The most that [`classes_wait_their_turn`] can come to, in any state of any device: a number of the class and its drr alone, which can be
/// promised before a packet comes. Of n classes with the quantum q of Q, that is `bytes + ceil(bytes/q)*(Q - q)`, and for the deficits of the
/// others `(Q - q) + (n - 1)*(mtu - 1)` (`bytes_of_turn`). No deficit is above a quantum and the mtu less a byte, also where a command has lowered
/// the quantum, since the deficit is cut with it. So until a packet has left that ends within `bytes` bytes of its class, the classes of the drr
/// send no more, the packet among them, under the conditions of that law (`sent`).
///
/// For all settings and every list of events whose fields are in their ranges, whatever comes to the other classes. Bytes are those that a class's
/// child hands to the drr, which may hold one packet more.
pub fn turns_are_bounded(settings: Settings)
    ensures bytes_of_turn { TurnsAreBounded settings }
    ensures sent { ClassesWaitAtMost settings }
    ensures calm_turn { CalmTurnsAreBounded settings }
    ensures calm_sent { CalmClassesWaitAtMost settings }
{
    settings.ranges();
}

/// What the classes of a drr send before the last packet that is queued in a fifo which is a class of it, whatever state the drr is in: where no
/// more than `bytes` bytes are queued there, as in a bfifo of that limit right after it took a packet, at most the number of
/// [`turns_are_bounded`], the packet among them, whatever comes to the other classes. It is said as long as the class has sent fewer bytes than
/// were queued there, and of what its child shows next at any time.
///
/// The drr keeps its classes and their quanta, and a command leaves the fifo, with what is queued there as it was, or longer at its end. For all
/// settings and every list of events whose fields are in their ranges. Bytes are those that a class's child hands to the drr, which may hold one
/// packet more.
pub fn fifos_wait_at_most(settings: Settings)
    ensures { FifosWaitAtMost settings }
{
    settings.ranges();
}

/// What leaves before the last packet that is queued in a class of a drr which is itself the child of a class of another drr, and so on, for any
/// number of drrs below one another. As long as the packet has not left one of them, and with the event at which it does, this drr has handed up
/// since, and holds, no more bytes than it held at first and a turn of its own for all that the drr below hands up: the packet that this one may
/// hold already, and a turn of its own, down to the bytes that are queued in the fifo of the last class (`most_of_turns`, from the number of
/// [`turns_are_bounded`]). So a bound of a drr is what the one above has to send of its class (`reached`).
///
/// Until the packet has left the device, polls give no more than these turns, itself among them, where the first drr is at the root; below a
/// tbf at the root an mtu more, for a packet that the first drr holds (`enough`). There the next event comes within the nanoseconds in which the
/// rate brings these bytes, or `late` after that, as long as the packet has not left, and a poll that gives nothing was before that
/// (`in_time`). The device is polled as [`rate_is_delivered`] says.
///
/// The packet waits in the last drr as long as the class has sent fewer bytes than were queued with it, or that drr holds a packet, in each state
/// since. It leaves it at an event, and waits in a drr above as long as this holds a packet, in each state since then. A drr gives what it holds
/// before all else, and holds none right after. The drrs keep their classes and quanta, and a command leaves the fifo, with what is queued
/// there as it was, or longer at its end. Nothing is asked of the other classes, or of the deficits. For all settings and every list of
/// events whose fields are in their ranges.
pub fn nested_turns_are_bounded(settings: Settings)
    ensures reached { NestedTurnsAreBounded settings }
    ensures enough { NestedTurnIsEnough settings }
    ensures in_time { NestedTurnIsInTime settings }
{
    settings.ranges();
}

/// What `Device::worst` of `q_device` answers of a class of a drr (`answered`) is true of each packet that the class's fifo keeps. It is last in
/// the fifo then, which has no more bytes than its limit, where a limit of so many packets counts as so many longest ones (`limit`). Until the
/// packet has left the device, what polls gave since it came, and what a poll at any time gives next, have no more bytes than were answered,
/// itself among them (`enough`).
///
/// Where a tbf is at the root, the next event comes within the nanoseconds that were answered from the packet's arrival, or `late` after that, as
/// long as the packet has not left; and a poll that gives nothing was before that. So it has left by then (`in_time`). The device is polled as
/// [`rate_is_delivered`] says, and no later than was answered.
///
/// The packet has not left as long as the class has sent fewer bytes than were queued with it, or the drr holds a packet, in each state since:
/// a drr gives what it holds before all else, and holds none right after. The way to the class stays as it is, which is the tbf at the root, the
/// drr, its classes and their quanta; and a command leaves the fifo, with what is queued there as it was, or longer at its end. Nothing is asked
/// of the other classes, of the deficits, or of the level of the bucket. For all settings and every list of events whose fields are in their
/// ranges.
pub fn turn_is_enough(settings: Settings)
    ensures answered { TurnIsAnswered settings }
    ensures limit { TurnsKeepLimits settings }
    ensures enough { TurnIsEnough settings }
    ensures in_time { TurnIsInTime settings }
{
    settings.ranges();
}

/// What `Device::latest` of `q_device` answers of a class of a drr (`answered`) is true of the packet that was queued last in the class's fifo, from
/// the state on in which it was asked, with the deficits and the active list of that state. Until the packet has left the device, what polls gave
/// since, and what a poll at any time gives next, have no more bytes than were answered, itself among them (`enough`). Where a tbf is at the root,
/// the next event comes by the time that was answered, or `late` after that, as long as the packet has not left; and a poll that gives nothing was
/// before that (`in_time`). The device is polled as [`rate_is_delivered`] says, and no later than was answered.
///
/// When the packet has left is said as in [`turn_is_enough`], and under the same conditions. What is answered of a packet that is to come next is
/// among what [`latest_is_enough`] says (`told_before`, `rises_no_faster`); and if it comes later, the time that is answered then is no later
/// than the first answer or than that which a full bucket would give then (`stands_as_it_fills`). For all settings and every list of events whose
/// fields are in their ranges, whatever comes to the other classes.
pub fn latest_turn_is_enough(settings: Settings)
    ensures answered { LatestTurnIsAnswered settings }
    ensures enough { LatestTurnIsEnough settings }
    ensures in_time { LatestTurnIsInTime settings }
    ensures stands_as_it_fills { LatestTurnStandsAsItFills settings }
{
    settings.ranges();
}

/// All that leaves an fq_codel before the first packet of a flow that joins it from neither list: the flows that were in the new list with
/// credits give at most these and a longest packet less a byte, each, and nothing else leaves, until the flow gives a packet or has none
/// left. So with the packet itself that is the bytes before which it leaves, or is lost to the fat flow.
///
/// For all settings and every list of events whose fields are in their ranges, whatever comes meanwhile, a command that changes the quantum
/// too. Packets that CoDel or the fat flow loses are not among the bytes, and the fq_codel may hold one packet more.
pub fn new_flows_go_before(settings: Settings)
    ensures { NewFlowsGoBefore settings }
{
    settings.ranges();
}
