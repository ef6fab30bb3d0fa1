//! Recorded events as lines of a script.
ghost use Rattle.std.specs.Prelude.{◌≡◌, ◌≢◌};
ghost use Rattle.qtree_c.specs.device.Calls.{Calls};
ghost use Rattle.qtree_c.specs.events.Scripts.{IsRecordedLine, IsScript, IsWritten};

use crate::abi::c_device::CDevice;
use crate::abi::codes::{DONE, IS_CLOSED, MEMORY, NOTHING, ROOM};
use crate::show::showing::copy;
use q_device::Device;
use q_spelling::{event_text, script_of};
use std::alloc::Global;

/// The line that a recorded event is, by its index from 0.
#[unsafe(no_mangle)]
pub extern "C" fn qtree_recorded_line(
    device: &mut CDevice,
    index: usize,
    text: &mut [u8],
    needed: &mut usize,
) -> u32
    ensures line { Calls (IsRecordedLine index result needed.new text.old text.new) result device.old.held.device device.new.held.device }
    ensures same { device.new.held.device ≡ device.old.held.device }
    ensures last { device.new.held.last ≡ device.old.held.last }
    ensures kept { result ≢ 0 → text.new ≡ text.old }
    ensures closed { result ≡ 50 → needed.new ≡ 0 }
{
    *needed = 0;
    if !device.is_open() {
        return IS_CLOSED;
    }
    recorded_line(&device.held.lend().device, index, text, needed)
}

/// The line of a recorded event of an open device.
fn recorded_line(device: &Device, index: usize, text: &mut [u8], needed: &mut usize) -> u32
    requires none { needed.old ≡ 0 }
    ensures line { IsRecordedLine index result needed.new text.old text.new device.now device.now }
    ensures kept { result ≢ 0 → text.new ≡ text.old }
    ensures opened { result ≢ 50 }
{
    match device.recorded().get(index) {
        Some(event) => lend(event_text(event).as_bytes(), text, needed),
        None => NOTHING,
    }
}

/// The script of all recorded events.
#[unsafe(no_mangle)]
pub extern "C" fn qtree_recorded_script(
    alloc: Global,
    device: &mut CDevice,
    text: &mut [u8],
    needed: &mut usize,
) -> u32
    ensures script { Calls (IsScript result needed.new text.old text.new) result device.old.held.device device.new.held.device }
    ensures same { device.new.held.device ≡ device.old.held.device }
    ensures last { device.new.held.last ≡ device.old.held.last }
    ensures kept { result ≢ 0 → text.new ≡ text.old }
    ensures closed { result ≡ 50 → needed.new ≡ 0 }
{
    *needed = 0;
    if !device.is_open() {
        return IS_CLOSED;
    }
    recorded_script(alloc, &device.held.lend().device, text, needed)
}

/// The script of an open device.
fn recorded_script(alloc: Global, device: &Device, text: &mut [u8], needed: &mut usize) -> u32
    requires none { needed.old ≡ 0 }
    ensures script { IsScript result needed.new text.old text.new device.now device.now }
    ensures kept { result ≢ 0 → text.new ≡ text.old }
    ensures opened { result ≢ 50 }
{
    match script_of(alloc, device.recorded()) {
        Ok(script) => lend(&script, text, needed),
        Err(_) => MEMORY,
    }
}

/// Writes a text into the first of the lent places, if they are enough, and reports how many it needs.
pub fn lend(text: &[u8], places: &mut [u8], needed: &mut usize) -> u32
    ensures written { IsWritten text.now result needed.new places.old places.new }
    ensures codes { result ≢ 0 → result ≡ 43 }
{
    *needed = text.len();
    if places.len() < text.len() {
        return ROOM;
    }
    copy(text, places);
    DONE
}
