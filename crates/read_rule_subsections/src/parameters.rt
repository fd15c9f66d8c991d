// Internal: the subsections of a rule that hold parameters: 0003, of the export, and 0005, of the token.
ghost use Rattle.std.specs.Prelude.{◌≡◌, Bool, List, ℕ, ◌+◌, ◌<◌, ◌≤◌, length};
ghost use Rattle.format.specs.Bytes.{number, bytes_at};
ghost use Rattle.format.specs.Parts.{export_parameters, token_parameters};
ghost use Rattle.format.specs.Rules.{control_length, variant_length};
ghost use Rattle.format.specs.Reading.{field_checks, subsection_checks};
ghost use Rattle.read_sections.specs.Refusals.{first_refusal};

use format::Refusal;
use format::refusals::{CHARACTERS, PARAMETER, RESERVED, SUBSECTION_LENGTH, VALUE};
use read_characters::page::Page;
use read_characters::{label_form, label_place};
use read_fields::keys::key_length;
use read_fields::two;
use read_sections::part::PartBytes;
use read_sections::subsection_head;

// A control vector or mask of so many bytes may stand: none, 8 or 16.
fn control_length(n: usize) -> bool
    ensures { (f : List ℕ) → length f ≡ n → result ≡ control_length f }
{
    matches!(n, 0 | 8 | 16)
}

// A variant of so many bytes may stand with this maximum: none, or 8 to 255 and no less than the maximum.
fn variant_length(n: usize, maximum: u8) -> bool
    requires { n < 256 }
    ensures { (f g : List ℕ) → number f ≡ maximum → length g ≡ n → result ≡ variant_length f g }
{
    n == 0 || 8 <= n && usize::from(maximum) <= n
}

// The fields of a subsection 0003, with a variant of x bytes and control vectors of c bytes.
fn export_fields(part: PartBytes, x: usize, c: usize) -> Result<(), Refusal>
    requires { (12 + x + c ≤ length part.bytes.now) × (x < 256) × (x ≡ number (bytes_at part.bytes.now 10 1)) × (c ≡ number (bytes_at part.bytes.now (11 + x) 1)) }
    ensures { (y : Bool) → result ≡ first_refusal part.entry.place (field_checks y export_parameters part.entry.bytes.now) }
{
    if two(part.bytes, 5) != 0 {
        return Err(part.refused(RESERVED, 5));
    }
    if part.bytes[7] != 0 {
        return Err(part.refused(VALUE, 7));
    }
    let minimum = part.bytes[8];
    let maximum = part.bytes[9];
    if !key_length(minimum) {
        return Err(part.refused(PARAMETER, 8));
    }
    if !key_length(maximum) || maximum < minimum {
        return Err(part.refused(PARAMETER, 9));
    }
    if !variant_length(x, maximum) {
        return Err(part.refused(PARAMETER, 10));
    }
    if !control_length(c) {
        return Err(part.refused(PARAMETER, 11 + x));
    }
    Ok(())
}

// A subsection 0003; seen: one stands before.
pub fn export_at(part: PartBytes, seen: bool) -> Result<(), Refusal>
    ensures { (x : Bool) → result ≡ first_refusal part.entry.place (subsection_checks x export_parameters seen part.entry.left part.entry.bytes.now) }
{
    subsection_head(part, 12, seen)?;
    let len = two(part.bytes, 2);
    let x = usize::from(part.bytes[10]);
    if len < 12 + x {
        return Err(part.refused(SUBSECTION_LENGTH, 2));
    }
    let c = usize::from(part.bytes[11 + x]);
    if len != 12 + x + c {
        return Err(part.refused(SUBSECTION_LENGTH, 2));
    }
    export_fields(part, x, c)
}

// The fields of a subsection 0005, with masks of m bytes and a label template of z bytes.
fn token_fields(part: PartBytes, page: &Page, m: usize, z: usize) -> Result<(), Refusal>
    requires { (10 + m + m + z ≤ length part.bytes.now) × (m ≡ number (bytes_at part.bytes.now 8 1)) × (z ≡ number (bytes_at part.bytes.now (9 + m + m) 1)) }
    ensures { (x : Bool) → result ≡ first_refusal part.entry.place (field_checks x token_parameters part.entry.bytes.now) }
{
    if two(part.bytes, 5) != 0 {
        return Err(part.refused(RESERVED, 5));
    }
    if part.bytes[7] != 0 {
        return Err(part.refused(VALUE, 7));
    }
    if !control_length(m) {
        return Err(part.refused(PARAMETER, 8));
    }
    if z == 0 {
        return Ok(());
    }
    if z != 64 {
        return Err(part.refused(PARAMETER, 9 + m + m));
    }
    let label = 10 + m + m;
    if !label_form(part.bytes, page, label) {
        return Err(part.refused(CHARACTERS, label + label_place(part.bytes, label)));
    }
    Ok(())
}

// A subsection 0005; seen: one stands before.
pub fn token_at(part: PartBytes, page: &Page, seen: bool) -> Result<(), Refusal>
    ensures { (x : Bool) → result ≡ first_refusal part.entry.place (subsection_checks x token_parameters seen part.entry.left part.entry.bytes.now) }
{
    subsection_head(part, 10, seen)?;
    let len = two(part.bytes, 2);
    let m = usize::from(part.bytes[8]);
    if len < 10 + m + m {
        return Err(part.refused(SUBSECTION_LENGTH, 2));
    }
    let z = usize::from(part.bytes[9 + m + m]);
    if len != 10 + m + m + z {
        return Err(part.refused(SUBSECTION_LENGTH, 2));
    }
    token_fields(part, page, m, z)
}
