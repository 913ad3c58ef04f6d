// The bits of a word. A group has its own on 16 bits: a trait over both would have two impls with these very bodies.
ghost use Rattle.std.specs.Prelude.{◌≡◌, ℕ, ◌<◌, not, ◌&&◌, ◌||◌, ◌==◌};
ghost use Rattle.collection.specs.Bits.{has, with, without};

pub(super) fn has_bit(word: u32, bit: u8) -> bool
    ensures { result ≡ has word bit }
{
    bit < 32 && (word >> bit) & 1 == 1
}

pub(super) fn with_bit(word: u32, bit: u8) -> u32
    requires { bit < 32 }
    ensures value { result ≡ with word bit }
    ensures bits { (k : ℕ) → has result k ≡ (k == bit || has word k) }
{
    word | 1 << bit
}

pub(super) fn without_bit(word: u32, bit: u8) -> u32
    requires { bit < 32 }
    ensures value { result ≡ without word bit }
    ensures bits { (k : ℕ) → has result k ≡ (not (k == bit) && has word k) }
{
    word & !(1 << bit)
}
