// Packed bytes: read as one number, most significant bit first, and written over a part of memory.
#![tactic(auto)]

ghost use Rattle.std.specs.Prelude.{◌≡◌, ℕ, ◌+◌, ◌<◌, ◌≤◌, length, if◌then◌else◌, MatchOption, nat_le};
ghost use Rattle.packed.specs.Bits.{whole};
ghost use Rattle.packed.specs.Parts.{pasted};

// The bytes as one number, or none where there are more than eight.
pub fn number(bytes: &[u8]) -> Option<u64>
    ensures { MatchOption result (8 < length bytes.now) (λ n. (length bytes.now ≤ 8) × (n ≡ whole bytes.now)) }
{
    if bytes.len() > 8 {
        return None;
    }
    let mut n: u64 = 0;
    for b in bytes {
        n = n * 256 + u64::from(*b);
    }
    Some(n)
}

// Writes `part` over the memory from `at` on; false, and nothing written, where it does not fit. A yes or no: a Result would
// have nothing to say beside.
pub fn paste(memory: &mut [u8], at: usize, part: &[u8]) -> bool
    ensures fits { result ≡ nat_le (at + length part.now) (length memory.old) }
    ensures after { memory.new ≡ (if result then pasted memory.old at part.now else memory.old) }
{
    let size = part.len();
    if at > memory.len() || size > memory.len() - at {
        return false;
    }
    let end = at + size;
    memory[at..end].copy_from_slice(part);
    true
}
