//! Lines of tc change the tree.
ghost use Rattle.std.specs.Prelude.{◌≡◌, ◌≢◌, ◌≤◌, ◌<◌, ◌^◌};
ghost use Rattle.std.specs.Io.BufRead.{strip_last};
ghost use Rattle.q_line.specs.Grammar.{line_of};
ghost use Rattle.q_model.specs.declared.event.Event.TheVariants as event;
ghost use Rattle.qtree_c.specs.device.Calls.{Calls};
ghost use Rattle.qtree_c.specs.device.Lines.{IsCommand, IsLine};
ghost use Rattle.qtree_c.specs.events.Noting.{command_events, noting, one_event, Notes};

use crate::abi::c_device::CDevice;
use crate::abi::c_fault::CFault;
use crate::abi::codes::{DONE, FAULTY, IS_CLOSED, NO_COMMAND, OUT_OF_RANGE};
use crate::device::lines::without_newline;
use crate::device::opened::Opened;
use crate::device::steps;
use q_device::Command;
use q_line::{Line, read_line};
use q_packet::Moment;

/// One line of tc that changes the tree. A newline at its end is no part of it.
#[unsafe(no_mangle)]
pub extern "C" fn qtree_command(
    device: &mut CDevice,
    line: &[u8],
    now: u64,
    fault: &mut CFault,
) -> u32
    ensures line { now ≤ 2 ^ 62 → Calls (IsLine (line_of (strip_last 10 line.now)) now result fault.new) result device.old.held.device device.new.held.device }
    ensures moment { 2 ^ 62 < now → (result ≡ 42) × (device.new.held.device ≡ device.old.held.device) }
    ensures kept { result ≢ 40 → fault.new ≡ fault.old }
    ensures noted { result ≡ 0 → Notes (command_events (line_of (strip_last 10 line.now)) now) device.old.held.device device.old.held.last device.new.held.last }
    ensures unnoted { result ≢ 0 → device.new.held.last ≡ device.old.held.last }
{
    let Some(now) = Moment::new(now) else {
        return OUT_OF_RANGE;
    };
    if !device.is_open() {
        return IS_CLOSED;
    }
    do_line(device.held.lend(), without_newline(line), now, fault)
}

/// An open device does what a line says.
fn do_line(opened: &mut Opened, line: &[u8], now: Moment, fault: &mut CFault) -> u32
    ensures line { IsLine (line_of line.now) now result fault.new opened.old.device opened.new.device }
    ensures kept { result ≢ 40 → fault.new ≡ fault.old }
    ensures noted { result ≡ 0 → opened.new.last ≡ noting (command_events (line_of line.now) now opened.old.device) opened.old.last }
    ensures unnoted { result ≢ 0 → opened.new.last ≡ opened.old.last }
{
    match read_line(line) {
        Ok(Line::Tc(command)) => do_command(opened, command, now),
        Ok(
            Line::Blank
            | Line::Show(_)
            | Line::At(_)
            | Line::Pkt(_)
            | Line::Frame { .. }
            | Line::Poll(_)
            | Line::Reap
            | Line::Totals,
        ) => NO_COMMAND,
        Err(found) => {
            *fault = CFault::of(found);
            FAULTY
        }
    }
}

/// An open device does a command, or refuses it.
fn do_command(opened: &mut Opened, command: Command, now: Moment) -> u32
    ensures command { IsCommand command now result opened.old.device opened.new.device }
    ensures noted { result ≡ 0 → opened.new.last ≡ noting (one_event (event.Command command now) opened.old.device) opened.old.last }
    ensures unnoted { result ≢ 0 → opened.new.last ≡ opened.old.last }
{
    match steps::command(opened, command, now) {
        Ok(()) => DONE,
        Err(refusal) => refusal.number() as u32,
    }
}
