// Internal: the checks of sections 11, 13 and 15, and how the checks of every section and subsection begin, each test once and in
// order. A part says which of its bytes are there; the functions ask besides what earlier tests have shown.
#![tactic(auto)]

pub mod part; // part.rt: a part of what is read
pub mod plain; // plain.rt: sections 13 and 15
pub mod public_key; // public_key.rt: section 11

ghost use Rattle.std.specs.Prelude.{◌≡◌, ◌≤◌};
ghost use Rattle.read_sections.specs.Refusals.{first_refusal, head_checks, sub_head_checks, fixed_head_checks};

use crate::part::PartBytes;
use format::Refusal;
use format::refusals::{
    REPEATED_SECTION, REPEATED_SUBSECTION, RESERVED, SECTION_LENGTH, SUBSECTION_LENGTH, VERSION,
};
use read_fields::two;

// The version, the length and the kind of a section: the first refusal.
pub fn section_head(part: PartBytes, least: usize, seen: bool) -> Result<(), Refusal>
    ensures { result ≡ first_refusal part.entry.place (head_checks least seen part.entry.bytes.now) }
{
    if part.bytes[1] != 0 {
        return Err(part.refused(VERSION, 1));
    }
    let length = two(part.bytes, 2);
    if length < least {
        return Err(part.refused(SECTION_LENGTH, 2));
    }
    if part.bytes.len() < length {
        return Err(part.refused(SECTION_LENGTH, 2));
    }
    if seen {
        return Err(part.refused(REPEATED_SECTION, 0));
    }
    Ok(())
}

// The length, the tag and the version of a subsection.
pub fn subsection_head(part: PartBytes, least: usize, seen: bool) -> Result<(), Refusal>
    requires { 5 ≤ least }
    ensures { result ≡ first_refusal part.entry.place (sub_head_checks least seen part.entry.left part.entry.bytes.now) }
{
    let length = two(part.bytes, 2);
    let past_section = part.left < length;
    if length < least || past_section {
        return Err(part.refused(SUBSECTION_LENGTH, 2));
    }
    if seen {
        return Err(part.refused(REPEATED_SUBSECTION, 0));
    }
    if part.bytes[4] != 0 {
        return Err(part.refused(VERSION, 4));
    }
    Ok(())
}

// The tests of a subsection that is always of this length, up to its one reserved byte: 0002 and 0004 of a rule, 0001 and 0002
// of section 14.
pub fn fixed_subsection_head(part: PartBytes, fixed: usize, seen: bool) -> Result<(), Refusal>
    requires { 6 ≤ fixed }
    ensures { result ≡ first_refusal part.entry.place (fixed_head_checks fixed seen part.entry.left part.entry.bytes.now) }
{
    subsection_head(part, fixed, seen)?;
    let length_at = 2;
    if two(part.bytes, length_at) != fixed {
        return Err(part.refused(SUBSECTION_LENGTH, length_at));
    }
    if part.bytes[5] != 0 {
        return Err(part.refused(RESERVED, 5));
    }
    Ok(())
}
