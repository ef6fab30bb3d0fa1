//! A device is set up by a whole file of tc lines, also while it runs.
ghost use Rattle.std.specs.Prelude.{◌≡◌, ◌≢◌, ◌≤◌, ◌<◌, ◌^◌, ◌++◌, [], drop, length, map, take, Some, None, true, is_some};
ghost use Rattle.q_device.specs.log.LastNoted.{all_noted};
ghost use Rattle.qtree_c.specs.device.Calls.{Calls};
ghost use Rattle.qtree_c.specs.device.SettingUp.{IsSettingUp, commands_at, no_report, told_undone};
ghost use Rattle.qtree_c.specs.events.Noting.{noting};

use crate::abi::c_device::CDevice;
use crate::abi::c_report::CReport;
use crate::abi::c_undone::CUndone;
use crate::abi::codes::{DONE, IS_CLOSED, MEMORY, OUT_OF_RANGE, UNDONE};
use crate::device::opened::Opened;
use q_device::{Command, Event, LastEvents};
use q_packet::Moment;
use q_setup::{Report, Undone, set_up};
use std::alloc::Global;

/// Makes the tree what the lines of a file say. Lines that are not done are told in the places that are lent, as many as there is room for.
#[unsafe(no_mangle)]
pub extern "C" fn qtree_set_up(
    alloc: Global,
    device: &mut CDevice,
    text: &[u8],
    now: u64,
    report: &mut CReport,
    undone: &mut [CUndone],
) -> u32
    ensures set_up { now ≤ 2 ^ 62 → Calls (IsSettingUp text.now now result report.new undone.old undone.new device.old.held.last device.new.held.last) result device.old.held.device device.new.held.device }
    ensures moment { 2 ^ 62 < now → (result ≡ 42) × (device.new.held.device ≡ device.old.held.device) }
    ensures in_range { now ≤ 2 ^ 62 → result ≢ 42 }
    ensures closed { result ≡ 50 → (report.new ≡ no_report) × (undone.new ≡ undone.old) × (device.new.held.last ≡ device.old.held.last) }
    ensures out_of_range { result ≡ 42 → (report.new ≡ no_report) × (undone.new ≡ undone.old) × (device.new.held.last ≡ device.old.held.last) }
{
    *report = CReport::nothing();
    let Some(now) = Moment::new(now) else {
        return OUT_OF_RANGE;
    };
    if !device.is_open() {
        return IS_CLOSED;
    }
    set_up_opened(alloc, device.held.lend(), text, now, report, undone)
}

/// An open device is set up.
fn set_up_opened(
    alloc: Global,
    opened: &mut Opened,
    text: &[u8],
    now: Moment,
    report: &mut CReport,
    undone: &mut [CUndone],
) -> u32
    requires { report.old ≡ no_report }
    ensures { IsSettingUp text.now now result report.new undone.old undone.new opened.old.last opened.new.last opened.old.device opened.new.device }
{
    let at = opened.device.clock().max(now);
    let Ok(done) = set_up(alloc, &mut opened.device, text, now) else {
        return MEMORY;
    };
    note_commands(&mut opened.last, &done.commands, at);
    *report = CReport::of(&done);
    tell(&done.undone, undone);
    code_of(&done)
}

/// Notes commands that the device has just done, each at this time, where there is a ring.
fn note_commands(last: &mut Option<LastEvents>, commands: &[Command], at: Moment)
    ensures { last.new ≡ noting (commands_at at commands.now) last.old }
{
    if let Some(last) = last {
        note_each(last, commands, at);
    }
}

/// Notes commands in a ring.
fn note_each(last: &mut LastEvents, commands: &[Command], at: Moment)
    ensures { last.new ≡ all_noted (commands_at at commands.now) last.old }
{
    for command in commands {
        last.note(Event::Command(*command, at));
    }
}

/// Tells lines that are not done, as many as there are places for.
fn tell(undone: &[Undone], places: &mut [CUndone])
    ensures { places.new ≡ told_undone undone.now places.old }
{
    for i in 0..places.len() {
        match undone.get(i) {
            Some(line) => places[i] = CUndone::of(line),
            None => return,
        }
    }
}

/// What is answered where no allocation failed before the first command.
fn code_of(report: &Report) -> u32
    ensures done { report.now.is_set_up ≡ true → result ≡ 0 }
    ensures memory { report.now.is_set_up ≢ true → is_some report.now.refusal ≡ true → result ≡ 90 }
    ensures undone { report.now.is_set_up ≢ true → report.now.refusal ≡ None → result ≡ 44 }
{
    if report.is_set_up {
        return DONE;
    }
    match report.refusal {
        Some(_) => MEMORY,
        None => UNDONE,
    }
}
