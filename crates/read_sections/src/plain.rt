// Internal: section 13, the name, and section 15, the application data: neither has a rule on its bytes.
ghost use Rattle.std.specs.Prelude.{◌≡◌, Bool};
ghost use Rattle.format.specs.Parts.{name, application_data};
ghost use Rattle.format.specs.Reading.{section_checks};
ghost use Rattle.read_sections.specs.Refusals.{first_refusal};

use crate::part::PartBytes;
use crate::section_head;
use format::Refusal;
use format::refusals::INNER_LENGTHS;
use read_fields::two;

// The first refusal of a section 13; seen: a section 13 stands before.
pub fn name_at(part: PartBytes, seen: bool) -> Result<(), Refusal>
    ensures { (x repeated : Bool) → result ≡ first_refusal part.entry.place (section_checks x name seen repeated part.entry.bytes.now) }
{
    section_head(part, 68, seen)?;
    if two(part.bytes, 2) != 68 {
        return Err(part.refused(INNER_LENGTHS, 2));
    }
    Ok(())
}

// The same of a section 15.
pub fn application_data_at(part: PartBytes, seen: bool) -> Result<(), Refusal>
    ensures { (x repeated : Bool) → result ≡ first_refusal part.entry.place (section_checks x application_data seen repeated part.entry.bytes.now) }
{
    section_head(part, 6, seen)?;
    if 6 + two(part.bytes, 4) != two(part.bytes, 2) {
        return Err(part.refused(INNER_LENGTHS, 2));
    }
    Ok(())
}
