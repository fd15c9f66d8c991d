// Internal: section 11, the public key.
ghost use Rattle.std.specs.Prelude.{◌≡◌, Bool, false, List, ◌∷◌, [], ℕ, length};
ghost use Rattle.format.specs.Bytes.{number, bytes_at};
ghost use Rattle.format.specs.Parts.{public_key};
ghost use Rattle.format.specs.Rules.{checks};
ghost use Rattle.format.specs.Reading.{located, part_slots, section_checks};
ghost use Rattle.read_sections.specs.Refusals.{first_refusal};

use crate::part::PartBytes;
use crate::section_head;
use format::Refusal;
use format::refusals::{INNER_LENGTHS, KEY, RESERVED, VALUE};
use read_fields::keys::{exponent_form, modulus_form};
use read_fields::{four, two};

// The first rule that the fields of the public key at a place break. Where the fields lie follows from their lengths, so r is any
// bytes that state these.
pub fn key_fields(
    place: u16,
    bits: usize,
    exponent: &[u8],
    modulus: &[u8],
    flags: u32,
) -> Result<(), Refusal>
    ensures { (r b f : List ℕ) → number (bytes_at r 6 2) ≡ length exponent.now → number (bytes_at r 10 2) ≡ length modulus.now → bits ≡ number b → flags ≡ number f → result ≡ first_refusal place (located (part_slots public_key r) (checks false public_key (b ∷ exponent.now ∷ modulus.now ∷ f ∷ []))) }
{
    let p = usize::from(place);
    if exponent.len() < 1 {
        return Err(Refusal::at(KEY, p + 6));
    }
    let too_long = 512 < exponent.len();
    if too_long {
        return Err(Refusal::at(KEY, p + 6));
    }
    if bits < 512 {
        return Err(Refusal::at(KEY, p + 8));
    }
    if 4096 < bits {
        return Err(Refusal::at(KEY, p + 8));
    }
    if modulus.len() != (bits + 7) / 8 {
        return Err(Refusal::at(KEY, p + 10));
    }
    if !modulus_form(modulus, bits) {
        return Err(Refusal::at(KEY, p + 12 + exponent.len()));
    }
    if !exponent_form(exponent, modulus) {
        return Err(Refusal::at(KEY, p + 12));
    }
    match flags {
        0 | 0x80000000 | 0xC0000000 => Ok(()),
        _ => Err(Refusal::at(VALUE, p + 12 + exponent.len() + modulus.len())),
    }
}

// The first refusal of a section 11; seen: a section 11 stands before.
pub fn public_key_at(part: PartBytes, seen: bool) -> Result<(), Refusal>
    ensures { (x repeated : Bool) → result ≡ first_refusal part.entry.place (section_checks x public_key seen repeated part.entry.bytes.now) }
{
    section_head(part, 16, seen)?;
    let s = part.bytes;
    let x = two(s, 6);
    let y = two(s, 10);
    if 16 + x + y != two(s, 2) {
        return Err(part.refused(INNER_LENGTHS, 2));
    }
    if two(s, 4) != 0 {
        return Err(part.refused(RESERVED, 4));
    }
    let modulus_at = 12 + x;
    let flags_at = modulus_at + y;
    let bits = two(s, 8);
    let flags = four(s, flags_at);
    key_fields(
        part.place as u16,
        bits,
        &s[12..modulus_at],
        &s[modulus_at..flags_at],
        flags,
    )
}
