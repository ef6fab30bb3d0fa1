ghost use Rattle.std.specs.Prelude.{◌≡◌, ◌≤◌, length, IfSome};
ghost use Rattle.q_packet.specs.Ethernet.{has_type, ip_at, is_tag, type_at};

use byteorder::{BigEndian, ByteOrder};

// Types of Ethernet.
const IPV4: u16 = 0x0800;

const IPV6: u16 = 0x86dd;

const CUSTOMER_TAG: u16 = 0x8100;

const SERVICE_TAG: u16 = 0x88a8;

/// The byte of an Ethernet frame at which its header of IPv4 or IPv6 begins, from as many of its bytes as are there: 14, or
/// 18 or 22 behind one or two VLAN tags (IEEE 802.1Q and 802.1ad). `None` where the frame has another type, as ARP, more
/// tags, or ends before its type does.
///
/// Whether a whole header follows is not asked: [`read_head`](crate::read_head) of the bytes from there on says so.
pub fn ip_at(frame: &[u8]) -> Option<usize>
    ensures value { result ≡ ip_at frame.now }
    ensures inside { IfSome result (λ at. at ≤ length frame.now) }
    ensures least { IfSome result (λ at. 14 ≤ at) }
    ensures most { IfSome result (λ at. at ≤ 22) }
{
    let at = type_at(frame);
    if has_type(frame, at, IPV4, IPV6) {
        Some(at + 2)
    } else {
        None
    }
}

// The byte at which the type of a frame begins, behind at most two tags.
fn type_at(frame: &[u8]) -> usize
    ensures value { result ≡ type_at frame.now }
    ensures least { 12 ≤ result }
    ensures most { result ≤ 20 }
{
    if !is_tag(frame, 12) {
        12
    } else if !is_tag(frame, 16) {
        16
    } else {
        20
    }
}

// Whether a VLAN tag begins at this byte.
fn is_tag(frame: &[u8], at: usize) -> bool
    requires { at ≤ 16 }
    ensures { result ≡ is_tag at frame.now }
{
    has_type(frame, at, CUSTOMER_TAG, SERVICE_TAG)
}

// Whether one of these two types is at this byte.
fn has_type(frame: &[u8], at: usize, a: u16, b: u16) -> bool
    requires { at ≤ 20 }
    ensures { result ≡ has_type a b at frame.now }
{
    if frame.len() < at + 2 {
        return false;
    }
    let found = BigEndian::read_u16(&frame[at..]);
    found == a || found == b
}
