//! What tc shows of a tree.
ghost use Rattle.std.specs.Prelude.{◌≡◌, ◌≢◌, ◌≤◌, ◌<◌, ◌++◌, IfOk, drop, length};
ghost use Rattle.q_tree.specs.TreeSeen.{tree_numbers};
ghost use Rattle.qtree_c.specs.device.Calls.{Calls};
ghost use Rattle.qtree_c.specs.show.Showing.{shown_text, IsShow};

use crate::abi::c_device::CDevice;
use crate::abi::codes::{DONE, IS_CLOSED, MEMORY, OUT_OF_RANGE, ROOM};
use q_device::{Device, Tree};
use q_session::{show_classes, show_filters, show_qdiscs};
use std::alloc::{AllocError, Global};

/// What `tc [-s] qdisc show`, `tc class show` or `tc filter show` prints.
#[unsafe(no_mangle)]
pub extern "C" fn qtree_show(
    alloc: Global,
    device: &mut CDevice,
    what: u32,
    text: &mut [u8],
    needed: &mut usize,
) -> u32
    ensures show { what ≤ 3 → Calls (IsShow what result needed.new text.old text.new) result device.old.held.device device.new.held.device }
    ensures out_of_range { 3 < what → result ≡ 42 }
    ensures same { device.new.held.device ≡ device.old.held.device }
    ensures last { device.new.held.last ≡ device.old.held.last }
    ensures kept { result ≢ 0 → text.new ≡ text.old }
    ensures nothing { result ≡ 42 → needed.new ≡ 0 }
    ensures closed { result ≡ 50 → needed.new ≡ 0 }
{
    *needed = 0;
    if what > 3 {
        return OUT_OF_RANGE;
    }
    if !device.is_open() {
        return IS_CLOSED;
    }
    show(alloc, &device.held.lend().device, what, text, needed)
}

/// What tc shows of an open device.
fn show(alloc: Global, device: &Device, what: u32, text: &mut [u8], needed: &mut usize) -> u32
    requires what { what ≤ 3 }
    requires none { needed.old ≡ 0 }
    ensures show { IsShow what result needed.new text.old text.new device.now device.now }
    ensures kept { result ≢ 0 → text.new ≡ text.old }
    ensures codes { result ≢ 42 }
    ensures opened { result ≢ 50 }
{
    let Ok(shown) = shown(alloc, device.tree(), what) else {
        return MEMORY;
    };
    *needed = shown.len();
    if text.len() < shown.len() {
        return ROOM;
    }
    copy(&shown, text);
    DONE
}

/// The text.
///
/// # Errors
///
/// `AllocError` if an allocation fails.
fn shown(alloc: Global, tree: &Tree, what: u32) -> Result<Vec<u8>, AllocError>
    requires { what ≤ 3 }
    ensures { IfOk result (λ text. text.items ≡ shown_text what (tree_numbers tree.now.tree)) }
{
    let mut text = Vec::new(alloc);
    let written = match what {
        0 => show_qdiscs(alloc, tree, false, &mut text),
        1 => show_qdiscs(alloc, tree, true, &mut text),
        2 => show_classes(alloc, tree, &mut text),
        _ => show_filters(alloc, tree, &mut text),
    };
    match written {
        Ok(()) => Ok(text),
        Err(_) => Err(AllocError),
    }
}

/// Writes bytes into the first of the places.
pub fn copy(bytes: &[u8], places: &mut [u8])
    requires { length bytes.now ≤ length places.old }
    ensures { places.new ≡ bytes.now ++ drop (length bytes.now) places.old }
{
    places[..bytes.len()].copy_from_slice(bytes);
}
