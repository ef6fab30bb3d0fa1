//! The report's texts, each put into the output whole.
ghost use Rattle.std.specs.Prelude.{◌≡◌, ◌++◌};
ghost use Rattle.q_words.specs.FaultText.{fault_text};
ghost use Rattle.q_script.specs.Script.{line_text, fault_line};
ghost use Rattle.q_script.specs.Lengths.{HasRoom};
ghost use Rattle.q_show.specs.Lengths.{GrowsBy};
ghost use Rattle.q_script_semantics.specs.Text.{device_line, lost_line, packet_text, poll_line, refused_line};
ghost use Rattle.q_session.specs.Lengths.{most_device, most_fault, most_fault_text, most_line_number, most_lost, most_packet, most_poll, most_refusal};

use q_device::{Lost, Polled, Refusal, Row};
use q_packet::{Ecn, Packet};
use q_script::Output;
use q_show::counters_text;
use q_words::LineFault;

/// `line K: `, with the line's number.
fn put_line_number(output: &mut Output, number: u64)
    requires { HasRoom output.old most_line_number }
    ensures text { output.new ≡ output.old ++ line_text number }
    ensures short { GrowsBy output.old output.new most_line_number }
{
    output.put(b"line ");
    output.put_number(number);
    output.put(b": ");
}

/// The line on a refusal.
pub fn put_refusal(output: &mut Output, number: u64, refusal: Refusal)
    requires { HasRoom output.old most_refusal }
    ensures { output.new ≡ output.old ++ refused_line number refusal }
{
    put_line_number(output, number);
    output.put(b"refused ");
    output.put_number(u64::from(refusal.number()));
    output.put(b" ");
    output.put(refusal.name().as_bytes());
    output.put(b"\n");
}

/// A fault and the word that has it.
fn put_fault_text(output: &mut Output, fault: LineFault)
    requires { HasRoom output.old most_fault_text }
    ensures text { output.new ≡ output.old ++ fault_text fault }
    ensures short { GrowsBy output.old output.new most_fault_text }
{
    output.put(b"fault ");
    output.put_number(u64::from(fault.number()));
    output.put(b" ");
    output.put(fault.name().as_bytes());
    output.put(b" word ");
    output.put_number(fault.word() as u64);
}

/// The line on a fault.
pub fn put_fault(output: &mut Output, number: u64, fault: LineFault)
    requires { HasRoom output.old most_fault }
    ensures { output.new ≡ output.old ++ fault_line number fault }
{
    put_line_number(output, number);
    put_fault_text(output, fault);
    output.put(b"\n");
}

/// A packet by its number and length.
fn put_packet(output: &mut Output, packet: &Packet)
    requires { HasRoom output.old most_packet }
    ensures text { output.new ≡ output.old ++ packet_text packet.now }
    ensures short { GrowsBy output.old output.new most_packet }
{
    output.put_number(packet.number);
    output.put(b" ");
    output.put_number(u64::from(packet.len));
}

/// The answer of a poll. The line of a marked packet says that it met congestion.
pub fn put_poll(output: &mut Output, polled: Polled)
    requires { HasRoom output.old most_poll }
    ensures { output.new ≡ output.old ++ poll_line polled }
{
    match polled {
        Polled::Packet(packet) => {
            output.put(b"sent ");
            put_packet(output, &packet);
            if packet.ecn == Ecn::Ce {
                output.put(b" ce");
            }
            output.put(b"\n");
        }
        Polled::Idle => output.put(b"idle\n"),
        Polled::Later => output.put(b"later\n"),
    }
}

/// A lost packet and its cause.
pub fn put_lost(output: &mut Output, lost: &Lost)
    requires { HasRoom output.old most_lost }
    ensures { output.new ≡ output.old ++ lost_line lost.now }
{
    output.put(b"lost ");
    put_packet(output, &lost.packet);
    output.put(b" ");
    output.put(lost.cause.name().as_bytes());
    output.put(b"\n");
}

/// The device's counters.
pub fn put_device(output: &mut Output, row: &Row)
    requires { HasRoom output.old most_device }
    ensures { output.new ≡ output.old ++ device_line row.now }
{
    output.put(b"device");
    output.put(counters_text(row).as_bytes());
    output.put(b"\n");
}
