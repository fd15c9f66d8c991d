// Internal: the checks of section 14, the information, and of its subsections, protection and dates, each test once and in order.
// The functions ask besides what earlier tests have shown of the part's bytes.
#![tactic(auto)]

ghost use Rattle.std.specs.Prelude.{◌≡◌, Bool, ◌+◌, ◌-◌, ◌<◌, ◌≤◌, length, drop, List};
ghost use Rattle.format.specs.Parts.{information, protection, dates, Part};
ghost use Rattle.format.specs.Rules.{has, Section};
ghost use Rattle.format.specs.Reading.{field_checks, subsection_checks, subsection, id_of, stated, as_answer, section_rest, section, kind_before};
ghost use Rattle.read_sections.specs.Refusals.{whether, first_refusal, section_rows};

use format::refusals::{
    DATE, MISSING, MKVP, RESERVED, SUBSECTION_LENGTH, UNKNOWN_SUBSECTION, VALUE,
};
use format::{INFORMATION_FIELDS, Refusal};
use read_fields::dates::{date_exists, in_order};
use read_fields::{all_zero, four, two};
use read_sections::part::PartBytes;
use read_sections::{fixed_subsection_head, section_head};

// The fields of a section 14.
fn information_fields(part: PartBytes) -> Result<(), Refusal>
    requires { 10 ≤ length part.bytes.now }
    ensures { (x : Bool) → result ≡ first_refusal part.entry.place (field_checks x information part.entry.bytes.now) }
{
    if two(part.bytes, 4) != 0 {
        return Err(part.refused(RESERVED, 4));
    }
    if 1 < four(part.bytes, 6) {
        return Err(part.refused(VALUE, 6));
    }
    Ok(())
}

// A subsection 0001.
fn protection_at(part: PartBytes, external: bool, seen: bool) -> Result<(), Refusal>
    ensures { result ≡ first_refusal part.entry.place (subsection_checks external protection seen part.entry.left part.entry.bytes.now) }
{
    fixed_subsection_head(part, 62, seen)?;
    let wrong_mkvp = external && !all_zero(part.bytes, 46, 16);
    if wrong_mkvp {
        return Err(part.refused(MKVP, 46));
    }
    Ok(())
}

// A subsection 0002. Its dates are judged only when its flags are 1.
fn dates_at(part: PartBytes, seen: bool) -> Result<(), Refusal>
    ensures { (x : Bool) → result ≡ first_refusal part.entry.place (subsection_checks x dates seen part.entry.left part.entry.bytes.now) }
{
    fixed_subsection_head(part, 16, seen)?;
    let flags = two(part.bytes, 6);
    if 1 < flags {
        return Err(part.refused(VALUE, 6));
    }
    let unjudged = flags != 1;
    if unjudged {
        return Ok(());
    }
    if !date_exists(part.bytes, 8) {
        return Err(part.refused(DATE, 8));
    }
    if !date_exists(part.bytes, 12) || !in_order(part.bytes, 8, 12) {
        return Err(part.refused(DATE, 12));
    }
    Ok(())
}

// The subsection at an offset of a section 14 that ends at another; the flags say which tags stand before.
fn information_sub(
    section: PartBytes,
    at: usize,
    end: usize,
    external: bool,
    protected: bool,
    dated: bool,
) -> Result<(), Refusal>
    requires { (at < end) × (end ≤ length section.bytes.now) }
    ensures { (before : List Part) → has protection before ≡ protected → has dates before ≡ dated → result ≡ whether (subsection external information before (section.entry.place + at) (end - at) (drop at section.entry.bytes.now)) }
{
    if end - at < 4 {
        return Err(section.refused(SUBSECTION_LENGTH, at));
    }
    let part = section.subsection(at, end);
    match two(part.bytes, 0) {
        0x0001 => protection_at(part, external, protected),
        0x0002 => dates_at(part, dated),
        _ => Err(part.refused(UNKNOWN_SUBSECTION, 0)),
    }
}

// The subsections of a section 14, and what it requires; the rows of the section.
fn information_subs(section: PartBytes, external: bool, full: bool) -> Result<u32, Refusal>
    requires { (10 ≤ stated section.bytes.now) × (stated section.bytes.now ≤ length section.bytes.now) }
    ensures { result ≡ as_answer section_rows (section_rest full external information section.entry.place section.entry.bytes.now) }
{
    let end = two(section.bytes, 2);
    let mut at = INFORMATION_FIELDS;
    let mut rows: u32 = 1;
    let mut protected = false;
    let mut dated = false;
    // No plainer as a `for`: the step is the length that the subsection states.
    while at < end {
        information_sub(section, at, end, external, protected, dated)?;
        if two(section.bytes, at) == 0x0001 {
            protected = true;
        } else {
            dated = true;
        }
        rows += 1;
        at += two(section.bytes, at + 2);
    }
    let missing = full && !protected;
    if missing {
        return Err(section.refused(MISSING, 0));
    }
    Ok(rows)
}

// A section 14; seen: one stands before.
pub fn information_at(
    part: PartBytes,
    external: bool,
    full: bool,
    seen: bool,
) -> Result<u32, Refusal>
    requires { id_of part.bytes.now ≡ 0x14 }
    ensures { (before : List Section) → kind_before information before ≡ seen → result ≡ as_answer section_rows (section full external before part.entry.place part.entry.bytes.now) }
{
    section_head(part, INFORMATION_FIELDS, seen)?;
    information_fields(part)?;
    information_subs(part, external, full)
}
