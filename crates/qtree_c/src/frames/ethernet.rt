//! Frames of Ethernet.
ghost use Rattle.std.specs.Prelude.{◌≡◌, ◌≤◌, length, unwrap_or};
ghost use Rattle.q_packet.specs.Ethernet.{ip_at};

use q_packet::ip_at;

/// The byte of an Ethernet frame at which its IP header begins, as [`ip_at`] finds it; 0 where none does.
#[unsafe(no_mangle)]
pub extern "C" fn qtree_ip_at(bytes: &[u8]) -> usize
    ensures value { result ≡ unwrap_or (ip_at bytes.now) 0 }
    ensures inside { result ≤ length bytes.now }
{
    ip_at(bytes).unwrap_or(0)
}
