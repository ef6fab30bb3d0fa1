//! The place in C's memory in which a device is.
ghost use Rattle.std.specs.Prelude.{◌≡◌, ◌<◌, true, false, Some, None, IfSome, IfNone, IsSome};
ghost use Rattle.q_device.specs.contracts.Device.{the_row as device_row};
ghost use Rattle.qtree_c.specs.abi.Holding.{IsClosed, IsClosed-prop};

use crate::abi::held_device::HeldDevice;
use crate::abi::raw_box::RawBox;
use crate::device::opened::Opened;
use std::alloc::Global;
use std::mem;

/// A place for a device. One whose bytes are all 0 is closed. `held.device` is the device for contracts, or `None` where it is closed,
/// and `held.last` the ring of its last events, where it has one.
#[repr(C)]
#[derive(Drop)]
pub struct CDevice {
    pub held: HeldDevice,
    /// 0 where it is closed, else 1.
    state: u64,
    ghost closed: { IsClosed state held.device } by { IsClosed-prop device_row _ _ },
    ghost open: { 0 < state → IsSome held.device },
}

impl CDevice {
    /// A closed place.
    fn closed() -> CDevice
        ensures state { result.state ≡ 0 }
        ensures device { result.held.device ≡ None }
        ensures last { result.held.last ≡ None }
    {
        CDevice {
            held: HeldDevice::empty(),
            state: 0,
        }
    }

    /// Whether a device is here.
    pub fn is_open(&self) -> bool
        ensures open { result ≡ true → IsSome self.now.held.device }
        ensures closed { result ≡ false → self.now.held.device ≡ None }
    {
        self.state != 0
    }

    /// The device with its ring, which leaves the place closed; `None` where it was.
    pub fn take(&mut self, alloc: Global) -> Option<Box<Opened>>
        ensures closed { self.new.held.device ≡ None }
        ensures state { self.new.state ≡ 0 }
        ensures some { IfSome result (λ opened. self.old.held.device ≡ Some opened.value.device) }
        ensures none { IfNone result (self.old.held.device ≡ None) }
    {
        if self.state == 0 {
            return None;
        }
        let held = mem::replace(self, CDevice::closed()).held;
        Some(held.into_raw(alloc).into_box())
    }

    /// Puts a device with its ring into a closed place.
    pub fn put(&mut self, opened: Box<Opened>)
        requires { self.old.held.device ≡ None }
        ensures device { self.new.held.device ≡ Some opened.value.device }
        ensures last { self.new.held.last ≡ opened.value.last }
    {
        *self = CDevice {
            held: HeldDevice::of(RawBox::of(opened)),
            state: 1,
        };
    }
}
