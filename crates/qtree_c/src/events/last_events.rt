//! The ring of the last events beside a device.
ghost use Rattle.std.specs.Prelude.{◌≡◌, ◌≢◌, ◌≤◌, ◌<◌, ◌==◌, if◌then◌else◌, IfOk, IsOk, Some, None, IsSome};
ghost use Rattle.q_device.specs.log.LastNoted.{none_noted};
ghost use Rattle.qtree_c.specs.events.Noting.{IsCountOfLast, IsLastEvent, IsLastLine, Tells};

use crate::abi::c_device::CDevice;
use crate::abi::c_event::CEvent;
use crate::abi::codes::{DONE, IS_CLOSED, MEMORY, NOTHING, OUT_OF_RANGE};
use crate::events::scripts::lend;
use q_device::LastEvents;
use q_spelling::event_text;
use std::alloc::{AllocError, Global};

/// The most events that are kept, as many as of the recorder.
const MOST_EVENTS: u32 = 1_000_000;

/// Keeps the last events from now on, so many of them, in place of those that were kept before; none of them where that is 0.
#[unsafe(no_mangle)]
pub extern "C" fn qtree_keep_last(alloc: Global, device: &mut CDevice, places: u32) -> u32
    ensures done { result ≡ 0 → device.new.held.last ≡ (if places == 0 then None else Some (none_noted places)) }
    ensures same { device.new.held.device ≡ device.old.held.device }
    ensures refused { result ≢ 0 → device.new.held.last ≡ device.old.held.last }
    ensures closed { device.old.held.device ≡ None → places ≤ 1000000 → result ≡ 50 }
    ensures opened { IsSome device.old.held.device → result ≢ 50 }
    ensures out_of_range { 1000000 < places → result ≡ 42 }
    ensures in_range { places ≤ 1000000 → result ≢ 42 }
    ensures none { IsSome device.old.held.device → places ≡ 0 → result ≡ 0 }
    ensures codes { result ≢ 0 → result ≢ 42 → result ≢ 50 → result ≡ 90 }
{
    if places > MOST_EVENTS {
        return OUT_OF_RANGE;
    }
    if !device.is_open() {
        return IS_CLOSED;
    }
    let Ok(last) = new_ring(alloc, places) else {
        return MEMORY;
    };
    device.held.lend().last = last;
    DONE
}

/// How many events were noted in the ring, and how many of them are kept; 0 and 0 without a ring.
#[unsafe(no_mangle)]
pub extern "C" fn qtree_last_noted(device: &mut CDevice, noted: &mut u64, kept: &mut usize) -> u32
    ensures last_noted { Tells (IsCountOfLast result noted.new kept.new device.old.held.last) result device.old.held.device }
    ensures same { device.new.held.device ≡ device.old.held.device }
    ensures last { device.new.held.last ≡ device.old.held.last }
    ensures closed { result ≡ 50 → (noted.new ≡ 0) × (kept.new ≡ 0) }
{
    *noted = 0;
    *kept = 0;
    if !device.is_open() {
        return IS_CLOSED;
    }
    if let Some(last) = &device.held.lend().last {
        *noted = last.noted();
        *kept = last.len();
    }
    DONE
}

/// One of the last events, by its index from the oldest that is kept, which is 0.
#[unsafe(no_mangle)]
pub extern "C" fn qtree_last_event(device: &mut CDevice, index: usize, event: &mut CEvent) -> u32
    ensures event { Tells (IsLastEvent index result event.old event.new device.old.held.last) result device.old.held.device }
    ensures same { device.new.held.device ≡ device.old.held.device }
    ensures last { device.new.held.last ≡ device.old.held.last }
    ensures kept { result ≢ 0 → event.new ≡ event.old }
{
    if !device.is_open() {
        return IS_CLOSED;
    }
    last_event(&device.held.lend().last, index, event)
}

/// The line that one of the last events is, by the same index.
#[unsafe(no_mangle)]
pub extern "C" fn qtree_last_line(
    device: &mut CDevice,
    index: usize,
    text: &mut [u8],
    needed: &mut usize,
) -> u32
    ensures line { Tells (IsLastLine index result needed.new text.old text.new device.old.held.last) result device.old.held.device }
    ensures same { device.new.held.device ≡ device.old.held.device }
    ensures last { device.new.held.last ≡ device.old.held.last }
    ensures kept { result ≢ 0 → text.new ≡ text.old }
    ensures closed { result ≡ 50 → needed.new ≡ 0 }
{
    *needed = 0;
    if !device.is_open() {
        return IS_CLOSED;
    }
    last_line(&device.held.lend().last, index, text, needed)
}

/// A ring of so many places; none where that is 0.
///
/// # Errors
///
/// `AllocError` if an allocation fails; never for no places.
fn new_ring(alloc: Global, places: u32) -> Result<Option<LastEvents>, AllocError>
    ensures made { IfOk result (λ last. last ≡ (if places == 0 then None else Some (none_noted places))) }
    ensures none { places ≡ 0 → IsOk result }
{
    if places == 0 {
        return Ok(None);
    }
    let last = LastEvents::new(alloc, places)?;
    Ok(Some(last))
}

/// One of the last events, where there is a ring that has it.
fn last_event(last: &Option<LastEvents>, index: usize, event: &mut CEvent) -> u32
    ensures event { IsLastEvent index result event.old event.new last.now }
    ensures kept { result ≢ 0 → event.new ≡ event.old }
    ensures opened { result ≢ 50 }
{
    let Some(last) = last else {
        return NOTHING;
    };
    match last.get(index) {
        Some(found) => {
            *event = CEvent::of(found);
            DONE
        }
        None => NOTHING,
    }
}

/// The line of one of the last events, where there is a ring that has it.
fn last_line(last: &Option<LastEvents>, index: usize, text: &mut [u8], needed: &mut usize) -> u32
    requires none { needed.old ≡ 0 }
    ensures line { IsLastLine index result needed.new text.old text.new last.now }
    ensures kept { result ≢ 0 → text.new ≡ text.old }
    ensures opened { result ≢ 50 }
{
    let Some(last) = last else {
        return NOTHING;
    };
    match last.get(index) {
        Some(event) => lend(event_text(event).as_bytes(), text, needed),
        None => NOTHING,
    }
}
