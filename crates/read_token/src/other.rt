// Internal: a section that is no rule.
ghost use Rattle.std.specs.Prelude.{◌≡◌, List};
ghost use Rattle.format.specs.Rules.{Section};
ghost use Rattle.format.specs.Reading.{id_of, as_answer, section};
ghost use Rattle.read_sections.specs.Refusals.{section_rows};
ghost use Rattle.read_token.specs.Progress.{Marked};

use format::Refusal;
use format::refusals::UNKNOWN_SECTION;
use read_information::information_at;
use read_sections::part::PartBytes;
use read_sections::plain::{application_data_at, name_at};
use read_sections::public_key::public_key_at;

// A section that is no rule; seen says, at its id, whether its kind stands before.
pub(crate) fn other_at(
    part: PartBytes,
    external: bool,
    full: bool,
    seen: &[bool; 0x16],
) -> Result<u32, Refusal>
    requires { id_of part.bytes.now ≡ 0x12 → ⊥ }
    ensures { (before : List Section) → Marked seen.now before → result ≡ as_answer section_rows (section full external before part.entry.place part.entry.bytes.now) }
{
    match part.bytes[0] {
        0x11 => public_key_at(part, seen[0x11])?,
        0x13 => name_at(part, seen[0x13])?,
        0x14 => return information_at(part, external, full, seen[0x14]),
        0x15 => application_data_at(part, seen[0x15])?,
        _ => return Err(part.refused(UNKNOWN_SECTION, 0)),
    }
    Ok(1)
}
