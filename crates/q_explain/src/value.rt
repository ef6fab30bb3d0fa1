/// What a value may be. Ranges are words.
#[derive(Clone, Copy)]
pub enum Value {
    /// A number in decimal digits, of this range.
    Number(&'static str),
    /// A number of bytes with a unit, of this range.
    Size(&'static str),
    /// A time with a unit, of this range.
    Time(&'static str),
    /// A number of bits or bytes a second with a unit.
    Rate,
    /// The name of a device.
    Name,
    /// The handle of a qdisc.
    Handle,
    /// The id of a class.
    Class,
    /// A protocol of frames.
    Protocol,
    /// A band of a priomap, which has 16 of them.
    Band,
    /// A protocol of IP.
    IpProto,
    /// An address with the length of its prefix, or without.
    Prefix,
    /// An address.
    Address,
    /// The bytes of a frame.
    Hex,
}

impl Value {
    /// Its form, in words.
    pub fn form(self) -> &'static str {
        match self {
            Value::Number(_) => "decimal digits alone",
            Value::Size(_) => "a size, as 1500 or 10kb",
            Value::Time(_) => "a time, as 5ms or 100us",
            Value::Rate => "a rate, as 10mbit or 1mbps",
            Value::Name => "a name",
            Value::Handle => "a handle, hexadecimal digits and a colon as in 1:",
            Value::Class => "a class id, two hexadecimal numbers as in 1:1",
            Value::Protocol => "ip, ipv6 or all",
            Value::Band => "16 bands in decimal digits",
            Value::IpProto => "tcp, udp, icmp, icmpv6, sctp or hexadecimal digits",
            Value::Prefix => "an address, as 10.0.0.1, 10.0.0.0/8 or 2001:db8::/32",
            Value::Address => "an address, as 10.0.0.1 or 2001:db8::1",
            Value::Hex => "an even number of hexadecimal digits, two or more",
        }
    }

    /// Its range, in words.
    pub fn range(self) -> &'static str {
        match self {
            Value::Number(range) | Value::Size(range) | Value::Time(range) => range,
            Value::Rate => "1 bit to 1 tbit a second",
            Value::Name => "1 to 15 bytes",
            Value::Handle => "1: to fffe:",
            Value::Class => "1:1 to fffe:ffff",
            Value::Protocol => "ip, ipv6 or all",
            Value::Band => "bands below the number of bands",
            Value::IpProto => "0 to ff",
            Value::Prefix => {
                "numbers up to 255 (ffff in IPv6), 32 bits at most (128), and addresses of the line's protocol alone"
            }
            Value::Address => "numbers up to 255 (ffff in IPv6), and addresses of one family",
            Value::Hex => "hexadecimal digits",
        }
    }

    /// What is said of the units that may follow its digits; empty where it has none.
    pub fn units(self) -> &'static str {
        match self {
            Value::Size(_) => {
                "; its units are b, k, kb, m, mb, g and gb of bytes, kbit, mbit and gbit of bits, and without one it is bytes"
            }
            Value::Time(_) => {
                "; its units are us, usec, usecs, ms, msec, msecs, s, sec and secs, and without one it is microseconds"
            }
            Value::Rate => {
                "; its units are bit, kbit, mbit, gbit and tbit of bits a second, bps, kbps, mbps, gbps and tbps of bytes a second, and without one it is bits a second"
            }
            _ => "",
        }
    }
}
