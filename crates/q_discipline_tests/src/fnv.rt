ghost use Rattle.std.specs.Prelude.{◌≡◌};
ghost use Rattle.q_discipline_tests.specs.Fnv.{fnv1a, fnv_mixed};

use q_packet::{FlowHash, FlowKey};

const OFFSET_BASIS: u32 = 2166136261;

const PRIME: u32 = 16777619;

/// FNV-1a over the 38 bytes of a key (draft-eastlake-fnv): a hash of another type than `OneAtATime`, by which the tests
/// of what is generic in `FlowHash` see that it does not rest on one of them.
#[derive(Clone, Copy, PartialEq, Eq, Debug)]
pub struct Fnv1a;

impl FlowHash for Fnv1a {
    ghost use Rattle.std.specs.Prelude.{◌≡◌};
    ghost use Rattle.std.proofs.Common.{ap};
    ghost use Rattle.q_packet.specs.Key.{Key, key_bytes};
    ghost use Rattle.q_discipline_tests.specs.Fnv.{fnv1a};

    ghost hash_of = { λ _ key. fnv1a (key_bytes key) };

    ghost respects_eq = { λ _ a b same. ap (λ (key : Key). fnv1a (key_bytes key)) same };

    fn hash(&self, key: &FlowKey) -> u32 {
        hash_bytes(&key.bytes())
    }
}

#[tactic(auto, unfolding(crate::specs::Fnv::fnv1a))]
fn hash_bytes(bytes: &[u8]) -> u32
    ensures { result ≡ fnv1a bytes.now }
{
    bytes
        .iter()
        .fold(OFFSET_BASIS, |hash, byte| mix(hash, *byte))
}

#[tactic(auto, unfolding(crate::specs::Fnv::fnv_mixed))]
fn mix(hash: u32, byte: u8) -> u32
    ensures { result ≡ fnv_mixed hash byte }
{
    (hash ^ byte as u32).wrapping_mul(PRIME)
}
