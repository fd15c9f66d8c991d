// Internal: lengths of keys, and the numbers of the public key.
ghost use Rattle.std.specs.Prelude.{◌≡◌, ◌+◌, ◌/◌, ◌≤◌, length, get_or};
ghost use Rattle.format.specs.Forms.{key_length, modulus_form, exponent_form};

use crate::all_zero;

// A key is 8, 16 or 24 bytes long.
pub fn key_length(n: u8) -> bool
    ensures { result ≡ key_length n }
{
    matches!(n, 8 | 16 | 24)
}

// The bytes, the fewest that hold that many bits, are an odd number of exactly so many significant bits: the first byte has
// its highest bit where the last of the bits stands, and the last byte is odd.
pub fn modulus_form(modulus: &[u8], bits: usize) -> bool
    requires { (512 ≤ bits) × (bits ≤ 4096) × (length modulus.now ≡ (bits + 7) / 8) }
    ensures { result ≡ modulus_form bits modulus.now }
{
    modulus[0] >> ((bits - 1) % 8) == 1 && modulus[modulus.len() - 1] % 2 == 1
}

// The exponent is odd, and less than the modulus, whose first byte is not 0: a shorter exponent is less, of a longer one what it
// has in front must be 0, and then the first bytes that differ decide.
pub fn exponent_form(exponent: &[u8], modulus: &[u8]) -> bool
    requires { (1 ≤ length exponent.now) × (1 ≤ get_or modulus.now 0 0) }
    ensures { result ≡ exponent_form exponent.now modulus.now }
{
    if exponent[exponent.len() - 1] % 2 != 1 {
        return false;
    }
    if exponent.len() < modulus.len() {
        return true;
    }
    let d = exponent.len() - modulus.len();
    let low = &exponent[d..];
    all_zero(exponent, 0, d) && low.cmp(&modulus).is_lt()
}
