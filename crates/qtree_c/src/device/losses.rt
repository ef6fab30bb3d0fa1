//! Losses are handed out.
ghost use Rattle.std.specs.Prelude.{◌≡◌, ◌≤◌};
ghost use Rattle.qtree_c.specs.device.Calls.{Calls, IsReap};
ghost use Rattle.qtree_c.specs.device.Folds.{IsReaps};

use crate::abi::c_device::CDevice;
use crate::abi::c_loss::CLoss;
use crate::abi::codes::{DONE, IS_CLOSED, NOTHING};
use q_device::Device;

/// Hands out the oldest loss.
#[unsafe(no_mangle)]
pub extern "C" fn qtree_reap(device: &mut CDevice, loss: &mut CLoss) -> u32
    ensures reap { Calls (IsReap result loss.old loss.new) result device.old.held.device device.new.held.device }
    ensures last { device.new.held.last ≡ device.old.held.last }
    ensures kept { result ≡ 50 → loss.new ≡ loss.old }
{
    if !device.is_open() {
        return IS_CLOSED;
    }
    reap(&mut device.held.lend().device, loss)
}

/// Hands out losses until there are as many as places, or none waits any more.
#[unsafe(no_mangle)]
pub extern "C" fn qtree_reap_many(
    device: &mut CDevice,
    losses: &mut [CLoss],
    count: &mut usize,
) -> u32
    ensures reaps { Calls (IsReaps result count.new losses.old losses.new) result device.old.held.device device.new.held.device }
    ensures last { device.new.held.last ≡ device.old.held.last }
    ensures kept { result ≡ 50 → (losses.new ≡ losses.old) × (count.new ≡ 0) }
{
    *count = 0;
    if !device.is_open() {
        return IS_CLOSED;
    }
    let (handed_out, code) = reap_many(&mut device.held.lend().device, losses);
    *count = handed_out;
    code
}

/// Hands out the oldest loss of an open device.
fn reap(device: &mut Device, loss: &mut CLoss) -> u32
    ensures reap { IsReap result loss.old loss.new device.old device.new }
    ensures codes { result ≤ 32 }
{
    match device.reap() {
        Some(oldest) => {
            *loss = CLoss::of(&oldest);
            DONE
        }
        None => NOTHING,
    }
}

/// Hands out losses of an open device, until there are as many as places, or none waits any more.
fn reap_many(device: &mut Device, losses: &mut [CLoss]) -> (usize, u32)
    ensures reaps { IsReaps result.1 result.0 losses.old losses.new device.old device.new }
    ensures codes { result.1 ≤ 32 }
{
    for i in 0..losses.len() {
        match device.reap() {
            Some(oldest) => losses[i] = CLoss::of(&oldest),
            None => return (i, NOTHING),
        }
    }
    (losses.len(), DONE)
}
