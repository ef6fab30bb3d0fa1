//! The place in C's memory in which a port is.
ghost use Rattle.std.specs.Prelude.{◌≡◌, ◌<◌, true, false, Some, None, IfSome, IfNone, IsSome};
ghost use Rattle.q_ports.specs.contracts.Port.{the_row as port_row};
ghost use Rattle.qtree_c.specs.abi.Holding.{IsClosed, IsClosed-prop};

use crate::abi::held_port::HeldPort;
use crate::abi::raw_box::RawBox;
use q_ports::Port;
use std::alloc::Global;
use std::mem;

/// A place for a port. One whose bytes are all 0 is closed. `held.port` is the port for contracts, or `None` where it is closed.
#[repr(C)]
#[derive(Drop)]
pub struct CPort {
    pub held: HeldPort,
    /// 0 where it is closed, else 1.
    state: u64,
    ghost closed: { IsClosed state held.port } by { IsClosed-prop port_row _ _ },
    ghost open: { 0 < state → IsSome held.port },
}

impl CPort {
    /// A closed place.
    fn closed() -> CPort
        ensures state { result.state ≡ 0 }
        ensures port { result.held.port ≡ None }
    {
        CPort {
            held: HeldPort::empty(),
            state: 0,
        }
    }

    /// Whether a port is here.
    pub fn is_open(&self) -> bool
        ensures open { result ≡ true → IsSome self.now.held.port }
        ensures closed { result ≡ false → self.now.held.port ≡ None }
    {
        self.state != 0
    }

    /// The port, which leaves the place closed; `None` where it was.
    pub fn take(&mut self, alloc: Global) -> Option<Box<Port>>
        ensures closed { self.new.held.port ≡ None }
        ensures state { self.new.state ≡ 0 }
        ensures some { IfSome result (λ port. self.old.held.port ≡ Some port.value) }
        ensures none { IfNone result (self.old.held.port ≡ None) }
    {
        if self.state == 0 {
            return None;
        }
        let held = mem::replace(self, CPort::closed()).held;
        Some(held.into_raw(alloc).into_box())
    }

    /// Puts a port into a closed place.
    pub fn put(&mut self, port: Box<Port>)
        requires { self.old.held.port ≡ None }
        ensures { self.new.held.port ≡ Some port.value }
    {
        *self = CPort {
            held: HeldPort::of(RawBox::of(port)),
            state: 1,
        };
    }
}
