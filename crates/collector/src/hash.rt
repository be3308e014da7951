//! By what an exclusion is put and found: a number of its two texts.

ghost use Rattle.std.specs.Prelude.{◌≡◌, fold};
ghost use Rattle.collector.specs.Hashes.{hash_of, leads_right, mixed};

// The number of a text, after that of another.
fn hashed(from: u32, text: &[u8]) -> u32
    ensures { result ≡ fold mixed from text.now }
{
    let mut hash = from;
    for byte in text {
        hash = hash.wrapping_add(*byte as u32).wrapping_mul(16_777_619);
    }
    hash
}

// The number of a group and an artifact. Costs their bytes.
#[tactic(auto, unfolding(crate::specs::Hashes::hash_of))]
pub(crate) fn hash_of(group: &str, artifact: &str) -> u32
    ensures { result ≡ hash_of group.now artifact.now }
{
    hashed(hashed(2_166_136_261, group.as_bytes()), artifact.as_bytes())
}

// Whether a number has a bit.
#[tactic(auto, unfolding(crate::specs::Hashes::leads_right))]
pub(crate) fn leads_right(hash: u32, bit: u32) -> bool
    ensures { result ≡ leads_right hash bit }
{
    hash & bit != 0
}
