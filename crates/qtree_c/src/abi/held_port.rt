//! A boxed port as C holds it.
ghost use Rattle.std.specs.Prelude.{◌≡◌, Option, Some, None, IsSome};
ghost use Rattle.q_ports.specs.Placed.{PortSeen};
ghost use Rattle.q_ports.specs.contracts.Port.{the_row as port_row};
ghost use Rattle.qtree_c.specs.abi.Holding.{held_code, held_owns};

use crate::abi::raw_box::RawBox;
use q_ports::Port;
use std::alloc::Global;
use std::marker::Model;

/// The address of a boxed port that is owned here, or null and nothing.
#[repr(C)]
#[derive(Drop)]
pub struct HeldPort {
    at: *mut u8,
    pub ghost port: { Option PortSeen } by { held_code port_row },
}

impl Model for HeldPort {
    ghost also_owns = { λ h. held_owns port_row h.at h.port };
}

impl HeldPort {
    ghost use Rattle.std.specs.Borrow.{sem};
    ghost use Rattle.qtree_c.specs.abi.Lending.{LendsPort};

    /// Nothing.
    pub fn empty() -> HeldPort
        ensures { result.port ≡ None }
    {
        HeldPort {
            at: std::ptr::null_mut(),
        }
    }

    /// The box, as C holds it.
    pub fn of(port: RawBox<Port, Global>) -> HeldPort
        ensures { result.port ≡ Some port.value }
    {
        let RawBox { at, alloc: _ } = port;
        HeldPort { at: at as *mut u8 }
    }

    /// The port where it is: the address itself is only read.
    #[inline(always)]
    pub fn lend(&mut self) -> &mut Port
        requires { IsSome self.old.port }
        ensures* follows { sem 𝓛 (LendsPort self.entry result) }
        ensures value { self.old.port ≡ Some result.now }
    {
        let at = self.at as *mut Port;
        unsafe { &mut *at }
    }

    /// The box again.
    pub fn into_raw(self, alloc: Global) -> RawBox<Port, Global>
        requires { IsSome self.port }
        ensures { self.port ≡ Some result.value }
    {
        let HeldPort { at } = self;
        RawBox {
            at: at as *mut Port,
            alloc,
        }
    }
}
