// Internal: the subsections of a rule that name other rules, 0002 and 0004, and the transport variant, 0001.
ghost use Rattle.std.specs.Prelude.{◌≡◌, Bool};
ghost use Rattle.format.specs.Parts.{transport_variant, transport_rule};
ghost use Rattle.format.specs.Reading.{subsection_checks};
ghost use Rattle.read_sections.specs.Refusals.{first_refusal};

use format::Refusal;
use format::refusals::{CHARACTERS, RESERVED, SUBSECTION_LENGTH};
use read_characters::page::Page;
use read_characters::{rule_id_form, rule_id_place};
use read_fields::two;
use read_sections::part::PartBytes;
use read_sections::{fixed_subsection_head, subsection_head};

// A subsection 0001; seen: one stands before.
pub fn variant_at(part: PartBytes, seen: bool) -> Result<(), Refusal>
    ensures { (x : Bool) → result ≡ first_refusal part.entry.place (subsection_checks x transport_variant seen part.entry.left part.entry.bytes.now) }
{
    subsection_head(part, 8, seen)?;
    if two(part.bytes, 2) != 8 + usize::from(part.bytes[7]) {
        return Err(part.refused(SUBSECTION_LENGTH, 2));
    }
    if two(part.bytes, 5) != 0 {
        return Err(part.refused(RESERVED, 5));
    }
    Ok(())
}

// A subsection 0002 or 0004. Both have the same tests.
pub fn reference_at(part: PartBytes, page: &Page, seen: bool) -> Result<(), Refusal>
    ensures { (x : Bool) → result ≡ first_refusal part.entry.place (subsection_checks x transport_rule seen part.entry.left part.entry.bytes.now) }
{
    fixed_subsection_head(part, 14, seen)?;
    if !rule_id_form(part.bytes, page, 6) {
        return Err(part.refused(CHARACTERS, 6 + rule_id_place(part.bytes, 6)));
    }
    Ok(())
}
