// Internal: the loop over the subsections of a rule, and what they owe each other.
ghost use Rattle.std.specs.Prelude.{◌≡◌, Bool, not, ◌||◌, List, [], ◌∷◌, ◌+◌, ◌-◌, ◌<◌, ◌≤◌, unwrap_or, length, drop};
ghost use Rattle.format.specs.Parts.{rule, export_parameters, token_parameters, Part};
ghost use Rattle.format.specs.Rules.{has, of_kind, mask_covers, has_required};
ghost use Rattle.format.specs.Reading.{stated, test, mask_offset, subsection, as_answer, section_rest};
ghost use Rattle.read_sections.specs.Refusals.{whether, first_refusal, section_rows};
ghost use Rattle.read_rules.specs.Loops.{Marked, Within, standing, rule_of};

use format::refusals::{MISSING, PARAMETER, SUBSECTION_LENGTH, UNKNOWN_SUBSECTION};
use format::{RULE_FIELDS, Refusal};
use read_characters::page::Page;
use read_fields::{four, two};
use read_rule_subsections::parameters::{export_at, token_at};
use read_rule_subsections::references::{reference_at, variant_at};
use read_sections::part::PartBytes;

// The subsection at an offset of a rule that ends at another; places has the offset of each tag that stands before.
fn rule_sub(
    section: PartBytes,
    at: usize,
    end: usize,
    page: &Page,
    places: &[Option<usize>; 0x0006],
) -> Result<(), Refusal>
    requires { (at < end) × (end ≤ length section.bytes.now) }
    ensures { (x : Bool) (before : List Part) → Marked before places.now → result ≡ whether (subsection x rule before (section.entry.place + at) (end - at) (drop at section.entry.bytes.now)) }
{
    if end - at < 4 {
        return Err(section.refused(SUBSECTION_LENGTH, at));
    }
    let part = section.subsection(at, end);
    let tag = two(part.bytes, 0);
    match tag {
        0x0001 => variant_at(part, places[0x0001].is_some()),
        0x0002 | 0x0004 => reference_at(part, page, places[tag].is_some()),
        0x0003 => export_at(part, places[0x0003].is_some()),
        0x0005 => token_at(part, page, places[0x0005].is_some()),
        _ => Err(part.refused(UNKNOWN_SUBSECTION, 0)),
    }
}

// The 0005 of a rule, if one stands, has no mask or one that is as long as the minimum of the 0003, if one stands; both by their
// offsets.
fn check_mask(
    section: PartBytes,
    export: Option<usize>,
    token: Option<usize>,
) -> Result<(), Refusal>
    requires { Within section.bytes.now export_parameters export × Within section.bytes.now token_parameters token }
    ensures { (us : List Part) → of_kind export_parameters us ≡ standing section.entry.bytes.now export_parameters export → of_kind token_parameters us ≡ standing section.entry.bytes.now token_parameters token → result ≡ first_refusal (section.entry.place + unwrap_or token 0) (test mask_offset 18 (mask_covers us) ∷ []) }
{
    let (Some(a), Some(b)) = (export, token) else {
        return Ok(());
    };
    let mask = section.bytes[b + 8];
    if mask != 0 && mask < section.bytes[a + 8] {
        return Err(section.refused(PARAMETER, b + 8));
    }
    Ok(())
}

// A rule with these bytes has what is required of it: in a full reading an export rule has a 0003.
pub fn has_required(s: &[u8], full: bool, exported: bool) -> bool
    requires { 20 ≤ length s.now }
    ensures { (us : List Part) → has export_parameters us ≡ exported → result ≡ (not full || has_required (rule_of s.now us)) }
{
    let draft = !full;
    draft || exported || four(s, 12) != 1
}

// The subsections of a rule, and its end; the rows of the section.
pub fn rule_subs(section: PartBytes, page: &Page, full: bool) -> Result<u32, Refusal>
    requires { (20 ≤ stated section.bytes.now) × (stated section.bytes.now ≤ length section.bytes.now) }
    ensures { (x : Bool) → result ≡ as_answer section_rows (section_rest full x rule section.entry.place section.entry.bytes.now) }
{
    let s = section.bytes;
    let end = two(s, 2);
    let mut places = [None; 0x0006];
    let mut at = RULE_FIELDS;
    let mut rows: u32 = 1;
    // No plainer as a `for`: the step is the length that the subsection states.
    while at < end {
        rule_sub(section, at, end, page, &places)?;
        let tag = two(s, at);
        places[tag] = Some(at);
        rows += 1;
        at += two(s, at + 2);
    }
    let export = places[0x0003];
    check_mask(section, export, places[0x0005])?;
    if !has_required(s, full, export.is_some()) {
        return Err(section.refused(MISSING, 0));
    }
    Ok(rows)
}
