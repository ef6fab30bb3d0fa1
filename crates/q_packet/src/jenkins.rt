ghost use Rattle.std.specs.Prelude.{◌≡◌};
ghost use Rattle.q_packet.specs.OneAtATime.{mixed, finished, one_at_a_time};

use crate::flow_hash::FlowHash;
use crate::flow_key::FlowKey;

/// Bob Jenkins' one-at-a-time hash of `bytes`, in 32 bits that wrap, begun at `seed`.
#[tactic(auto, unfolding(crate::specs::OneAtATime::one_at_a_time))]
pub fn one_at_a_time(seed: u32, bytes: &[u8]) -> u32
    ensures { result ≡ one_at_a_time seed bytes.now }
{
    finish(bytes.iter().fold(seed, |hash, byte| mix(hash, *byte)))
}

// One byte mixed in.
#[tactic(auto, unfolding(crate::specs::OneAtATime::mixed))]
fn mix(hash: u32, byte: u8) -> u32
    ensures { result ≡ mixed hash byte }
{
    let hash = hash.wrapping_add(byte as u32);
    let hash = hash.wrapping_add(hash << 10);
    hash ^ (hash >> 6)
}

// The bits spread once more after the last byte.
#[tactic(auto, unfolding(crate::specs::OneAtATime::finished))]
fn finish(hash: u32) -> u32
    ensures { result ≡ finished hash }
{
    let hash = hash.wrapping_add(hash << 3);
    let hash = hash ^ (hash >> 11);
    hash.wrapping_add(hash << 15)
}

/// The one-at-a-time hash over the 38 bytes of a key.
#[derive(Clone, Copy, PartialEq, Eq, Debug)]
pub struct OneAtATime {
    pub seed: u32,
}

impl FlowHash for OneAtATime {
    ghost use Rattle.std.specs.Prelude.{◌≡◌};
    ghost use Rattle.std.proofs.Common.{ap};
    ghost use Rattle.q_packet.specs.Key.{Key, key_bytes};
    ghost use Rattle.q_packet.specs.OneAtATime.{one_at_a_time};

    ghost hash_of = { λ h key. one_at_a_time h.seed (key_bytes key) };

    ghost respects_eq = { λ h a b same. ap (λ (key : Key). one_at_a_time h.seed (key_bytes key)) same };

    fn hash(&self, key: &FlowKey) -> u32 {
        one_at_a_time(self.seed, &key.bytes())
    }
}
