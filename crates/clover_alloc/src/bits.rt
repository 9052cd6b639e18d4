// Bits in words of 64, the lowest bit of the first word being bit 0.
ghost use Rattle.std.specs.Prelude.{◌≡◌, ◌≢◌, ℕ, ◌<◌, if◌then◌else◌};
ghost use Rattle.std.specs.Int.{bit_at};

/// How many bits a word has.
pub const WORD: usize = 64;

/// The word with this bit set or cleared.
pub fn with_bit(word: u64, bit: usize, set: bool) -> u64
    requires { bit < 64 }
    ensures bit { bit_at result bit ≡ (if set then 1 else 0) }
    ensures others { (k : ℕ) → k < 64 → k ≢ bit → bit_at result k ≡ bit_at word k }
{
    if set {
        word | (1 << bit)
    } else {
        word & !(1 << bit)
    }
}
