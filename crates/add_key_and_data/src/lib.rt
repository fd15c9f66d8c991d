// Public: the additions of the two sections that can be long, the public key and the application data. Each is judged as it
// was lent, and then written where it is to stand, so that its bytes are copied once. The calls ask nothing.
// All contracts of the calls are one but for the kind and its fields: the answer is `write_answer (addition KIND FIELDS draft)`,
// and the draft then holds `draft_after` of the same.
#![tactic(auto)]

ghost use Rattle.std.specs.Prelude.{◌≡◌, ◌∷◌, [], ◌+◌, ◌≤◌, length};
ghost use Rattle.format.specs.Layout.{write};
ghost use Rattle.format.specs.Parts as Parts;
ghost use Rattle.format.specs.Rules.{longest};
ghost use Rattle.format.specs.Writer.{write_answer, draft_after, addition, public_key_fields};

use format::Refusal;
use read_sections::public_key::key_fields;
use write_bytes::Buffer;
use write_judged_section::place_for;
use write_section::heads::section_head;
use write_section::not_fitting;

// Copies a text to a place that is as long. By a loop, of which the compiler makes steps of 32 bytes: `copy_from_slice` would be a
// call of `memmove`, one function more that a host program in C has to link.
fn copy(place: &mut [u8], text: &[u8])
    requires { length place.old ≡ length text.now }
    ensures { place.new ≡ text.now }
{
    'bytes: for i in 0..text.len() {
        place[i] = text[i];
    }
}

// The bytes of section 11, in the place that is lent for them.
fn put_key(part: &mut [u8], modulus_bits: u16, exponent: &[u8], modulus: &[u8], flags: u32)
    requires { (length part.old ≡ 16 + length exponent.now + length modulus.now) × (length part.old ≤ longest) }
    ensures { part.new ≡ write (length part.old) (Parts.layout Parts.public_key) (public_key_fields modulus_bits exponent.now modulus.now flags) }
{
    let mut head = Buffer::<12>::new();
    head.put(&section_head(0x11, part.len() as u16));
    head.put(&[0; 2]);
    head.put(&(exponent.len() as u16).to_be_bytes());
    head.put(&modulus_bits.to_be_bytes());
    head.put(&(modulus.len() as u16).to_be_bytes());
    let (head_place, rest) = part.split_at_mut(12);
    head_place.copy_from_slice(head.as_slice());
    let (exponent_place, rest) = rest.split_at_mut(exponent.len());
    copy(exponent_place, exponent);
    let (modulus_place, flags_place) = rest.split_at_mut(modulus.len());
    copy(modulus_place, modulus);
    flags_place.copy_from_slice(&flags.to_be_bytes());
}

// The bytes of section 15, in the place that is lent for them.
fn put_data(part: &mut [u8], data: &[u8])
    requires { (length part.old ≡ 6 + length «data».now) × (length part.old ≤ longest) }
    ensures { part.new ≡ write (length part.old) (Parts.layout Parts.application_data) («data».now ∷ []) }
{
    let mut head = Buffer::<6>::new();
    head.put(&section_head(0x15, part.len() as u16));
    head.put(&(data.len() as u16).to_be_bytes());
    let (head_place, data_place) = part.split_at_mut(6);
    head_place.copy_from_slice(head.as_slice());
    copy(data_place, data);
}

// Section 11, the public key: the bits of its modulus, its exponent and modulus, and its flags.
pub fn public_key(
    draft: &mut [u8],
    modulus_bits: u16,
    exponent: &[u8],
    modulus: &[u8],
    flags: u32,
) -> Result<u32, Refusal>
    ensures answer { result ≡ write_answer (addition Parts.public_key (public_key_fields modulus_bits exponent.now modulus.now flags) draft.old) }
    ensures draft { draft.new ≡ draft_after (addition Parts.public_key (public_key_fields modulus_bits exponent.now modulus.now flags) draft.old) draft.old }
{
    if 65535 < exponent.len() {
        return not_fitting(draft);
    }
    if 65535 < modulus.len() {
        return not_fitting(draft);
    }
    let n = 16 + exponent.len() + modulus.len();
    let l = place_for(draft, 0x11, n)? as usize;
    key_fields(l as u16, modulus_bits as usize, exponent, modulus, flags)?;
    let end = l + n;
    put_key(&mut draft[l..end], modulus_bits, exponent, modulus, flags);
    draft[2..4].copy_from_slice(&(end as u16).to_be_bytes());
    Ok(end as u32)
}

// Section 15, the application data: any bytes.
pub fn application_data(draft: &mut [u8], data: &[u8]) -> Result<u32, Refusal>
    ensures answer { result ≡ write_answer (addition Parts.application_data («data».now ∷ []) draft.old) }
    ensures draft { draft.new ≡ draft_after (addition Parts.application_data («data».now ∷ []) draft.old) draft.old }
{
    let too_long = 65535 < data.len();
    if too_long {
        return not_fitting(draft);
    }
    let n = 6 + data.len();
    let l = place_for(draft, 0x15, n)? as usize;
    let end = l + n;
    put_data(&mut draft[l..end], data);
    draft[2..4].copy_from_slice(&(end as u16).to_be_bytes());
    Ok(end as u32)
}
