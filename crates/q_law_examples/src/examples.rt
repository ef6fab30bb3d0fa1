//! Laws of sharing, of time and of order, each with a worked replay at which its premises hold, and with what it says there. A function has the name of
//! the law in `q_laws`, or in `q_device` where it ends in `_stretch`, and its clauses have the names of the clauses there.
ghost use Rattle.std.specs.Prelude.{◌≡◌};
ghost use Rattle.q_law_examples.specs.Bands.{ConservedWork, LineFirst, OrderOfFlow, StrictBands};
ghost use Rattle.q_law_examples.specs.Flows.{FlowAgainstAnother, FlowBeginsNew, FlowIsNotStarved, FlowShare, GrantedEvenly, JoinsBefore, JoinsFirst, JoinsSpared};
ghost use Rattle.q_law_examples.specs.Lines.{EnoughForWorst, EnoughInLine, LatestInLine, LimitIsDelay, LineInTime, LineKeepsLimit, RisesNoFaster, StandsInLine, ToldBefore, WorstInTime};
ghost use Rattle.q_law_examples.specs.Rates.{BoundedBucket, DeliveredRate, NeverLate, PaidInTime, SpentRate};
ghost use Rattle.q_law_examples.specs.Replays.{settings};

use q_device::laws as device_laws;
use q_laws::laws;
use q_model::Settings;

/// A flow of an fq_codel that stays backlogged over four polls, beside another one.
pub fn flow_against_any()
    ensures { FlowAgainstAnother }
{
    laws::flow_against_any(worked_settings());
}

/// From the poll that grants to a flow on, three polls grant nothing to it.
pub fn no_flow_starves()
    ensures { FlowIsNotStarved }
{
    laws::no_flow_starves(worked_settings());
}

/// A flow joins while another one is in the new list, and a poll gives a packet of that.
pub fn new_flow_first()
    ensures { JoinsFirst }
{
    laws::new_flow_first(worked_settings());
}

/// The same flow, after that poll.
pub fn joining_flow_is_spared()
    ensures { JoinsSpared }
{
    laws::joining_flow_is_spared(worked_settings());
}

/// A tbf at the root whose polls come at most a microsecond late, or at the times that are answered.
pub fn rate_is_delivered()
    ensures exact { SpentRate }
    ensures in_time { DeliveredRate }
    ensures never_late { NeverLate }
{
    laws::rate_is_delivered(worked_settings());
}

/// 2000 bytes that are left to pay, and a packet of them in each state.
pub fn bytes_are_paid_in_time()
    ensures { PaidInTime }
{
    laws::bytes_are_paid_in_time(worked_settings());
}

/// A prio with packets in both bands.
pub fn work_is_conserved()
    ensures { ConservedWork }
{
    laws::work_is_conserved(worked_settings());
}

/// A poll sends a packet of the second band, once the first is empty.
pub fn bands_are_strict()
    ensures { StrictBands }
{
    laws::bands_are_strict(worked_settings());
}

/// Two packets of a flow beside one of another flow, in a prio.
pub fn flows_keep_order()
    ensures { OrderOfFlow }
{
    laws::flows_keep_order(worked_settings());
}

/// The packets of the first band of that prio.
pub fn lines_leave_first()
    ensures { LineFirst }
{
    laws::lines_leave_first(worked_settings());
}

/// Two packets in the fifo of a tbf at the root.
pub fn lines_leave_in_time()
    ensures from_any_state { LineInTime }
    ensures within_a_limit { LimitIsDelay }
{
    laws::lines_leave_in_time(worked_settings());
}

/// What the device answers of that fifo, and a packet that it keeps then.
pub fn worst_is_enough()
    ensures limit { LineKeepsLimit }
    ensures enough { EnoughForWorst }
    ensures in_time { WorstInTime }
{
    laws::worst_is_enough(worked_settings());
}

/// What it answers of the last packet there, and of one that is to come.
pub fn latest_is_enough()
    ensures enough { EnoughInLine }
    ensures in_time { LatestInLine }
    ensures told_before { ToldBefore }
    ensures rises_no_faster { RisesNoFaster }
    ensures stands_as_it_fills { StandsInLine }
{
    laws::latest_is_enough(worked_settings());
}

/// All that leaves before the flow that joined.
pub fn new_flows_go_before()
    ensures { JoinsBefore }
{
    laws::new_flows_go_before(worked_settings());
}

/// Two flows of an fq_codel that stay backlogged over four polls.
pub fn pair_stretch()
    ensures flows { GrantedEvenly }
{
    device_laws::pair_stretch(worked_settings());
}

/// The same tbf, and what its bucket pays.
pub fn bucket_stretch()
    ensures bounded { BoundedBucket }
{
    device_laws::bucket_stretch(worked_settings());
}

/// A flow of an fq_codel that stays backlogged over four polls, and one that joins.
pub fn flow_stretch()
    ensures share { FlowShare }
    ensures begins { FlowBeginsNew }
{
    device_laws::flow_stretch(worked_settings());
}

// The settings of all these replays.
fn worked_settings() -> Settings
    ensures { result ≡ settings }
{
    Settings {
        mtu: 1000,
        txqueuelen: 1000,
        recorder: 4096,
    }
}
