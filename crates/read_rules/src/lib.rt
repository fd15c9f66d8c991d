// Internal: section 12, the rule, and the loop over its subsections. Each test is made once and in order. The functions ask
// besides what earlier tests have shown of the part's bytes.
#![tactic(auto)]

mod subsections; // subsections.rt: the loop over the subsections of a rule, and what they owe each other

ghost use Rattle.std.specs.Prelude.{◌≡◌, Bool, List, ◌≤◌, length};
ghost use Rattle.format.specs.Parts.{rule};
ghost use Rattle.format.specs.Rules.{Section};
ghost use Rattle.format.specs.Reading.{id_of, field_checks};
ghost use Rattle.read_rule_ids.specs.Keys.{Room};
ghost use Rattle.read_sections.specs.Refusals.{first_refusal};
ghost use Rattle.read_rules.specs.Ids.{Held, RuleAnswered};

use crate::subsections::{has_required, rule_subs};
use format::refusals::{CHARACTERS, MISSING, REPEATED_SECTION, VALUE};
use format::{RULE_FIELDS, Refusal};
use read_characters::page::Page;
use read_characters::{rule_id_form, rule_id_place};
use read_fields::keys::key_length;
use read_fields::{eight, four, two};
use read_rule_ids::RuleIds;
use read_sections::part::PartBytes;
use read_sections::section_head;

// The fields of a rule.
fn rule_fields(part: PartBytes, page: &Page) -> Result<(), Refusal>
    requires { 20 ≤ length part.bytes.now }
    ensures { (x : Bool) → result ≡ first_refusal part.entry.place (field_checks x rule part.entry.bytes.now) }
{
    let s = part.bytes;
    if !rule_id_form(s, page, 4) {
        return Err(part.refused(CHARACTERS, 4 + rule_id_place(s, 4)));
    }
    let flags = four(s, 12);
    if 1 < flags {
        return Err(part.refused(VALUE, 12));
    }
    if flags == 0 && !key_length(s[16]) {
        return Err(part.refused(VALUE, 16));
    }
    if 2 < s[17] {
        return Err(part.refused(VALUE, 17));
    }
    if u32::from(s[18]) != flags {
        return Err(part.refused(VALUE, 18));
    }
    if 2 < s[19] {
        return Err(part.refused(VALUE, 19));
    }
    Ok(())
}

// A rule. The Rule IDs of the rules before it are in ids, and its own is put there.
pub fn rule_at(part: PartBytes, page: &Page, ids: &mut RuleIds, full: bool) -> Result<u32, Refusal>
    requires { (id_of part.bytes.now ≡ 0x12) × Room ids.old }
    ensures { (x : Bool) (before : List Section) → Held before part.entry.place ids.old → RuleAnswered full x before part.entry.bytes.now part.entry.place ids.new result }
{
    section_head(part, RULE_FIELDS, false)?;
    rule_fields(part, page)?;
    let s = part.bytes;
    if ids.put(eight(s, 4)) {
        return Err(part.refused(REPEATED_SECTION, 0));
    }
    if two(s, 2) != RULE_FIELDS {
        return rule_subs(part, page, full);
    }
    if !has_required(s, full, false) {
        return Err(part.refused(MISSING, 0));
    }
    Ok(1)
}
