ghost use Rattle.std.specs.Prelude.{◌≡◌, All};
ghost use Rattle.q_device.specs.promises.Promise.{promise_seen};
ghost use Rattle.q_tree.specs.answers.Ways.{IsShare};
ghost use Rattle.qtree_c.specs.answers.Promised.{told_of};

use q_device::Service;

/// What a class is promised, as C has it. 0 stands for a rate where no tbf is at the root.
#[repr(C)]
#[derive(Clone, Copy, Drop)]
pub struct CPromise {
    pub link: u64,
    pub rate: u64,
    pub part: u64,
    pub slack: u64,
}

/// A billion bytes, of which `part` says the part of a class.
const BILLION: u64 = 1_000_000_000;

impl CPromise {
    /// This promise as C has it.
    pub fn of(service: &Service) -> CPromise
        requires { All IsShare service.now.shares.items }
        ensures { result ≡ told_of (promise_seen service.now) }
    {
        CPromise {
            link: service.link.unwrap_or(0),
            rate: service.rate().unwrap_or(0),
            part: service.part_of(BILLION),
            slack: service.slack,
        }
    }
}
