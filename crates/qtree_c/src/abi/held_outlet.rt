//! A boxed outlet as C holds it.
ghost use Rattle.std.specs.Prelude.{◌≡◌, Option, Some, None, IsSome};
ghost use Rattle.q_ports.specs.Rings.{RingSeen};
ghost use Rattle.q_ports.specs.contracts.Outlet.{the_row as outlet_row};
ghost use Rattle.qtree_c.specs.abi.Holding.{held_code, held_owns};

use crate::abi::raw_box::RawBox;
use q_ports::Outlet;
use std::alloc::Global;
use std::marker::Model;

/// The address of a boxed outlet that is owned here, or null and nothing.
#[repr(C)]
#[derive(Drop)]
pub struct HeldOutlet {
    at: *mut u8,
    pub ghost outlet: { Option RingSeen } by { held_code outlet_row },
}

impl Model for HeldOutlet {
    ghost also_owns = { λ h. held_owns outlet_row h.at h.outlet };
}

impl HeldOutlet {
    ghost use Rattle.std.specs.Borrow.{sem};
    ghost use Rattle.qtree_c.specs.abi.Lending.{LendsOutlet};

    /// Nothing.
    pub fn empty() -> HeldOutlet
        ensures { result.outlet ≡ None }
    {
        HeldOutlet {
            at: std::ptr::null_mut(),
        }
    }

    /// The box, as C holds it.
    pub fn of(outlet: RawBox<Outlet, Global>) -> HeldOutlet
        ensures { result.outlet ≡ Some outlet.value }
    {
        let RawBox { at, alloc: _ } = outlet;
        HeldOutlet { at: at as *mut u8 }
    }

    /// The outlet where it is: the address itself is only read.
    #[inline(always)]
    pub fn lend(&mut self) -> &mut Outlet
        requires { IsSome self.old.outlet }
        ensures* follows { sem 𝓛 (LendsOutlet self.entry result) }
        ensures value { self.old.outlet ≡ Some result.now }
    {
        let at = self.at as *mut Outlet;
        unsafe { &mut *at }
    }

    /// The box again.
    pub fn into_raw(self, alloc: Global) -> RawBox<Outlet, Global>
        requires { IsSome self.outlet }
        ensures { self.outlet ≡ Some result.value }
    {
        let HeldOutlet { at } = self;
        RawBox {
            at: at as *mut Outlet,
            alloc,
        }
    }
}
