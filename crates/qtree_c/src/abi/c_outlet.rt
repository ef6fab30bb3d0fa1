//! The place in C's memory in which an outlet is.
ghost use Rattle.std.specs.Prelude.{◌≡◌, ◌<◌, true, false, Some, None, IfSome, IfNone, IsSome};
ghost use Rattle.q_ports.specs.contracts.Outlet.{the_row as outlet_row};
ghost use Rattle.qtree_c.specs.abi.Holding.{IsClosed, IsClosed-prop};

use crate::abi::held_outlet::HeldOutlet;
use crate::abi::raw_box::RawBox;
use q_ports::Outlet;
use std::alloc::Global;
use std::mem;

/// A place for an outlet. One whose bytes are all 0 is closed. `held.outlet` is the outlet for contracts, or `None` where it is closed.
#[repr(C)]
#[derive(Drop)]
pub struct COutlet {
    pub held: HeldOutlet,
    /// 0 where it is closed, else 1.
    state: u64,
    ghost closed: { IsClosed state held.outlet } by { IsClosed-prop outlet_row _ _ },
    ghost open: { 0 < state → IsSome held.outlet },
}

impl COutlet {
    /// A closed place.
    fn closed() -> COutlet
        ensures state { result.state ≡ 0 }
        ensures outlet { result.held.outlet ≡ None }
    {
        COutlet {
            held: HeldOutlet::empty(),
            state: 0,
        }
    }

    /// Whether an outlet is here.
    pub fn is_open(&self) -> bool
        ensures open { result ≡ true → IsSome self.now.held.outlet }
        ensures closed { result ≡ false → self.now.held.outlet ≡ None }
    {
        self.state != 0
    }

    /// The outlet, which leaves the place closed; `None` where it was.
    pub fn take(&mut self, alloc: Global) -> Option<Box<Outlet>>
        ensures closed { self.new.held.outlet ≡ None }
        ensures state { self.new.state ≡ 0 }
        ensures some { IfSome result (λ outlet. self.old.held.outlet ≡ Some outlet.value) }
        ensures none { IfNone result (self.old.held.outlet ≡ None) }
    {
        if self.state == 0 {
            return None;
        }
        let held = mem::replace(self, COutlet::closed()).held;
        Some(held.into_raw(alloc).into_box())
    }

    /// Puts an outlet into a closed place.
    pub fn put(&mut self, outlet: Box<Outlet>)
        requires { self.old.held.outlet ≡ None }
        ensures { self.new.held.outlet ≡ Some outlet.value }
    {
        *self = COutlet {
            held: HeldOutlet::of(RawBox::of(outlet)),
            state: 1,
        };
    }
}
