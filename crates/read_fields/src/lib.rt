// Internal: the readings of single fields, but those of characters. Each asks that its bytes are there. Numbers stand here, dates
// and keys in modules of their own.
#![tactic(auto)]

pub mod dates; // dates.rt: dates that exist, and their order
pub mod keys; // keys.rt: lengths of keys, the modulus and the exponent of the public key

ghost use Rattle.std.specs.Prelude.{◌≡◌, ◌+◌, ◌<◌, ◌≤◌, length};
ghost use Rattle.format.specs.Bytes.{number, bytes_at, all_zero};

// The number in the two bytes at i.
#[tactic(auto, using(crate::proofs::Numbers::number_two))]
pub fn two(s: &[u8], i: usize) -> usize
    requires { i + 2 ≤ length s.now }
    ensures { (result ≡ number (bytes_at s.now i 2)) × (result < 65536) }
{
    usize::from(u16::from_be_bytes([s[i], s[i + 1]]))
}

// The number in the four bytes at i.
#[tactic(auto, using(crate::proofs::Numbers::number_four))]
pub fn four(s: &[u8], i: usize) -> u32
    requires { i + 4 ≤ length s.now }
    ensures { result ≡ number (bytes_at s.now i 4) }
{
    u32::from_be_bytes([s[i], s[i + 1], s[i + 2], s[i + 3]])
}

// The number in the eight bytes at i.
#[tactic(auto, using(crate::proofs::Numbers::number_eight, std::proofs::lemmas::Grind::or_after_shift))]
pub fn eight(s: &[u8], i: usize) -> u64
    requires { i + 8 ≤ length s.now }
    ensures { result ≡ number (bytes_at s.now i 8) }
{
    u64::from(four(s, i)) << 32 | u64::from(four(s, i + 4))
}

// The n bytes at i are all 0: their bits are gathered, with no branch inside the loop.
pub fn all_zero(s: &[u8], i: usize, n: usize) -> bool
    requires { i + n ≤ length s.now }
    ensures { result ≡ all_zero (bytes_at s.now i n) }
{
    s[i..i + n].iter().fold(0, |bits, byte| bits | byte) == 0
}
