ghost use Rattle.std.specs.Prelude.{◌≡◌, ◌↔◌, IfSome, IsSome};
ghost use Rattle.q_ports.specs.PortRanges.{AreInRange};

/// How many ports and gauges a device has, and how long the rings of the ports are. Code that would make one with a number out of range is refused.
#[derive(Clone, Copy)]
pub struct PortCounts {
    /// How many ports there are, 1 to 64.
    pub ports: usize,
    /// How many packets the ring of each port holds, 1 to 65536.
    pub ring: usize,
    /// How many gauges there are, 0 to 16.
    pub gauges: usize,
    ghost in_range: { AreInRange ports ring gauges },
}

impl PortCounts {
    /// Makes a value of these numbers. Returns `None` if one of them is out of its range.
    pub fn new(ports: usize, ring: usize, gauges: usize) -> Option<PortCounts>
        ensures in_range { IsSome result ↔ AreInRange ports ring gauges }
        ensures value { IfSome result (λ c. (c.ports ≡ ports) × (c.ring ≡ ring) × (c.gauges ≡ gauges)) }
    {
        if 1 <= ports && ports <= 64 && 1 <= ring && ring <= 65_536 && gauges <= 16 {
            Some(PortCounts {
                ports,
                ring,
                gauges,
            })
        } else {
            None
        }
    }
}
