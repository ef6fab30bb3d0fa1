//! What a drive writes at its end.
ghost use Rattle.std.specs.Prelude.{◌≡◌, ◌++◌, [], OnOk, OnErr, IfErr};
ghost use Rattle.std.specs.Io.KnownBytes.{Appends};
ghost use Rattle.q_model.specs.Tally.{totals};
ghost use Rattle.q_script_semantics.specs.Report.{show_text};
ghost use Rattle.q_script.specs.Lengths.{HasRoom, most_step};
ghost use Rattle.q_session.specs.Lengths.{most_device};
ghost use Rattle.q_show.specs.Lengths.{GrowsBy};
ghost use Rattle.q_show.specs.Writes.{MayWrite, WriteFailed};
ghost use Rattle.q_show.specs.Written.{AppendsFront, HasPut, HasWrittenWhole};
ghost use Rattle.q_drive.specs.Lengths.{most_amount, most_amount_line, most_drained, most_driven, most_given_up};
ghost use Rattle.q_drive.specs.Texts.{amount_text, arrived_line, drained_text, driven_lines, driven_text, ending_text, given_up_line, memory_line, qdiscs, settled_line, shown_text, totals_line};

use crate::draining::Drained;
use crate::driving::Driven;
use q_device::{Device, Refusal, Totals};
use q_line::{Object, Show};
use q_script::Output;
use q_session::{put_device, put_show};
use q_show::{Target, WriteFault};
use std::io::Write;

/// Writes the totals of the senders, and the device's counters and the qdiscs if they are to be shown; or that an allocation
/// failed for them.
pub fn write_ending<W: Write>(
    driven: &Option<Driven>,
    show: bool,
    output: &mut Output,
    target: &mut Target<'_, W>,
) -> Result<(), WriteFault>
    requires empty { output.old ≡ [] }
    requires going { MayWrite target.old.writes }
    ensures same_writer { target.new.writer.ghost_name ≡ target.old.writer.ghost_name }
    ensures ok { OnOk result (Appends (W.contents target.old.writer.now) (W.contents target.new.writer.now) (ending_text show driven.now)) }
    ensures err { OnErr result (AppendsFront (W.contents target.old.writer.now) (W.contents target.new.writer.now) (ending_text show driven.now)) }
    ensures going { OnOk result (MayWrite target.new.writes) }
    ensures failed { IfErr result (λ fault. WriteFailed target.new.writes fault.kind) }
{
    match driven {
        Some(driven) => write_driven(driven, show, output, target),
        None => {
            put_memory(output);
            output.flush(target)
        }
    }
}

/// Writes what the senders came to.
fn write_driven<W: Write>(
    driven: &Driven,
    show: bool,
    output: &mut Output,
    target: &mut Target<'_, W>,
) -> Result<(), WriteFault>
    requires empty { output.old ≡ [] }
    requires going { MayWrite target.old.writes }
    ensures { HasWrittenWhole W.contents target.old target.new (driven_text show driven.now) result }
{
    put_driven(driven, show, output);
    put_shown(driven, show, output, target)?;
    output.flush(target)
}

/// The three lines: the settled share, what the device counts as arrived, and how many packets were given up. Then what was
/// drained, where it was, and all that the device counts, where it is to be shown.
fn put_driven(driven: &Driven, show: bool, output: &mut Output)
    requires { HasRoom output.old most_driven }
    ensures { output.new ≡ output.old ++ driven_lines show driven.now }
{
    put_settled(output, driven.settled);
    put_arrived(output, driven.device.totals().arrived);
    put_given_up(output, driven.given_up);
    put_drained(output, driven.drained);
    put_totals(driven, show, output);
}

/// All that the device counts, where it is to be shown.
fn put_totals(driven: &Driven, show: bool, output: &mut Output)
    requires { HasRoom output.old most_device }
    ensures { output.new ≡ output.old ++ totals_line show driven.now }
{
    if show {
        put_device(output, &driven.device.totals());
    }
}

/// Packets and bytes, and the end of the line.
fn put_amount(output: &mut Output, amount: Totals)
    requires { HasRoom output.old most_amount }
    ensures text { output.new ≡ output.old ++ amount_text amount }
    ensures short { GrowsBy output.old output.new most_amount }
{
    output.put_number(amount.packets);
    output.put(b"p ");
    output.put_number(amount.bytes);
    output.put(b"b");
    output.put(b"\n");
}

/// The line on the settled share.
fn put_settled(output: &mut Output, settled: Totals)
    requires { HasRoom output.old most_amount_line }
    ensures text { output.new ≡ output.old ++ settled_line settled }
    ensures short { GrowsBy output.old output.new most_amount_line }
{
    output.put(b"settled ");
    put_amount(output, settled);
}

/// The line on what has arrived at the device.
fn put_arrived(output: &mut Output, arrived: Totals)
    requires { HasRoom output.old most_amount_line }
    ensures text { output.new ≡ output.old ++ arrived_line arrived }
    ensures short { GrowsBy output.old output.new most_amount_line }
{
    output.put(b"arrived ");
    put_amount(output, arrived);
}

/// The line on the packets that were given up.
fn put_given_up(output: &mut Output, given_up: u64)
    requires { HasRoom output.old most_given_up }
    ensures text { output.new ≡ output.old ++ given_up_line given_up }
    ensures short { GrowsBy output.old output.new most_given_up }
{
    output.put(b"given up ");
    output.put_number(given_up);
    output.put(b"\n");
}

/// The line on what was drained, where something was.
fn put_drained(output: &mut Output, drained: Option<Drained>)
    requires { HasRoom output.old most_drained }
    ensures text { output.new ≡ output.old ++ drained_text drained }
    ensures short { GrowsBy output.old output.new most_drained }
{
    let Some(drained) = drained else {
        return;
    };
    output.put(b"drained ");
    output.put_number(drained.amount.packets);
    output.put(b"p ");
    output.put_number(drained.amount.bytes);
    output.put(b"b at ");
    output.put_number(drained.at.ns());
    output.put(b"\n");
}

/// The line on an allocation failure.
fn put_memory(output: &mut Output)
    requires { HasRoom output.old most_step }
    ensures { output.new ≡ output.old ++ memory_line }
{
    let refusal = Refusal::Memory;
    output.put(b"refused ");
    output.put_number(u64::from(refusal.number()));
    output.put(b" ");
    output.put(refusal.name().as_bytes());
    output.put(b"\n");
}

/// What `tc -s qdisc show` asks for.
const QDISCS: Show = Show {
    object: Object::Qdisc,
    counters: true,
};

/// The qdiscs, where they are to be shown.
fn put_shown<W: Write>(
    driven: &Driven,
    show: bool,
    output: &mut Output,
    target: &mut Target<'_, W>,
) -> Result<(), WriteFault>
    requires going { MayWrite target.old.writes }
    ensures { HasPut W.contents target.old target.new output.new (output.old ++ shown_text show driven.now) result }
{
    if show {
        put_qdiscs(&driven.device, output, target)
    } else {
        Ok(())
    }
}

/// The qdiscs with their counters.
fn put_qdiscs<W: Write>(
    device: &Device,
    output: &mut Output,
    target: &mut Target<'_, W>,
) -> Result<(), WriteFault>
    requires going { MayWrite target.old.writes }
    ensures { HasPut W.contents target.old target.new output.new (output.old ++ show_text totals qdiscs device.now.device) result }
{
    put_show(device.tree(), QDISCS, output, target)
}
