ghost use Rattle.std.specs.Prelude.{◌≡◌, ℕ};

use crate::flow_key::FlowKey;

/// A hash of flow keys, by which fq_codel chooses the flow of a packet (RFC 8290, section 4.1).
pub trait FlowHash {
    ghost use Rattle.q_packet.specs.Key.{Key};

    // The hash of a key.
    ghost hash_of: { Self → Key → ℕ };

    /// The hash of `key`.
    fn hash(&self, key: &FlowKey) -> u32
        ensures { result ≡ hash_of self.now key.now };

    // Equal keys hash equally.
    ghost respects_eq: { (h : Self) (a b : Key) → a ≡ b → hash_of h a ≡ hash_of h b };
}
