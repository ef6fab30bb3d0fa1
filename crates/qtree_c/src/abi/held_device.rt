//! A boxed device as C holds it, with the ring of its last events.
ghost use Rattle.std.specs.Prelude.{◌≡◌, Option, Some, None, IsSome};
ghost use Rattle.q_device.specs.device.DeviceSeen.{DeviceSeen};
ghost use Rattle.q_device.specs.log.LastNoted.{LastNoted};
ghost use Rattle.q_device.specs.contracts.Device.{the_row as device_row};
ghost use Rattle.q_device.specs.contracts.log.last_events.LastEvents.{the_row as last_row};
ghost use Rattle.qtree_c.specs.contracts.device.opened.Opened.{the_row as opened_row};
ghost use Rattle.qtree_c.specs.abi.Holding.{held_code, held_owns, opened_of};

use crate::abi::raw_box::RawBox;
use crate::device::opened::Opened;
use std::alloc::Global;
use std::marker::Model;

/// The address of a boxed device with its ring, which is owned here, or null and nothing.
#[repr(C)]
#[derive(Drop)]
pub struct HeldDevice {
    at: *mut u8,
    pub ghost device: { Option DeviceSeen } by { held_code device_row },
    pub ghost last: { Option LastNoted } by { held_code last_row },
}

impl Model for HeldDevice {
    ghost also_owns = { λ h. held_owns opened_row h.at (opened_of h.device h.last) };
}

impl HeldDevice {
    ghost use Rattle.std.specs.Borrow.{sem};
    ghost use Rattle.qtree_c.specs.abi.Lending.{LendsDevice};

    /// Nothing.
    pub fn empty() -> HeldDevice
        ensures { (result.device ≡ None) × (result.last ≡ None) }
    {
        HeldDevice {
            at: std::ptr::null_mut(),
        }
    }

    /// The box, as C holds it.
    pub fn of(opened: RawBox<Opened, Global>) -> HeldDevice
        ensures { (result.device ≡ Some opened.value.device) × (result.last ≡ opened.value.last) }
    {
        let RawBox { at, alloc: _ } = opened;
        HeldDevice { at: at as *mut u8 }
    }

    /// The device with its ring where they are: the address itself is only read.
    #[inline(always)]
    pub fn lend(&mut self) -> &mut Opened
        requires { IsSome self.old.device }
        ensures* follows { sem 𝓛 (LendsDevice self.entry result) }
        ensures value { (self.old.device ≡ Some result.now.device) × (self.old.last ≡ result.now.last) }
    {
        let at = self.at as *mut Opened;
        unsafe { &mut *at }
    }

    /// The box again.
    pub fn into_raw(self, alloc: Global) -> RawBox<Opened, Global>
        requires { IsSome self.device }
        ensures { (self.device ≡ Some result.value.device) × (self.last ≡ result.value.last) }
    {
        let HeldDevice { at } = self;
        RawBox {
            at: at as *mut Opened,
            alloc,
        }
    }
}
