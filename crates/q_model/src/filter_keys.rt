ghost use Rattle.std.specs.Prelude.{IfSome};
ghost use Rattle.q_model.specs.Numbers.{IsWithin};
ghost use Rattle.q_model.specs.Options.{IsPrefix};

use crate::ip_prefix::IpPrefix;
use crate::ranges::{byte_ranges, port_ranges, prefix_ranges};

/// The keys of a flower filter (tc-flower(8)). A packet has to agree with each key that is set. The widest come first, since
/// fields are laid out in this order.
#[derive(Clone, Copy, PartialEq, Eq, Debug)]
pub struct FilterKeys {
    pub src_ip: Option<IpPrefix>,
    pub dst_ip: Option<IpPrefix>,
    pub src_port: Option<u16>,
    pub dst_port: Option<u16>,
    /// The number of the protocol above IP.
    pub ip_proto: Option<u8>,
}

impl FilterKeys {
    /// Every number is in its range, which the types keep. It does nothing: its clause is for the laws of other crates.
    pub fn ranges(&self)
        ensures ip_proto { IfSome self.now.ip_proto (IsWithin 0 0xff) }
        ensures src_ip { IfSome self.now.src_ip IsPrefix }
        ensures dst_ip { IfSome self.now.dst_ip IsPrefix }
        ensures src_port { IfSome self.now.src_port (IsWithin 0 0xffff) }
        ensures dst_port { IfSome self.now.dst_port (IsWithin 0 0xffff) }
    {
        byte_ranges(self.ip_proto);
        prefix_ranges(self.src_ip);
        prefix_ranges(self.dst_ip);
        port_ranges(self.src_port);
        port_ranges(self.dst_port);
    }
}
