// Public: the additions of 12/0001, 12/0002 and 12/0004 to the last section of a lent draft: the variant and the rule of the
// transport key, the rule of the source key. Each tests the length of what it is lent, makes the subsection's bytes in an
// array of its own and adds them. The calls ask nothing.
// All contracts here are one but for the kind and its fields: the answer is `write_answer (addition KIND FIELDS draft)`, and
// the draft then holds `draft_after` of the same.
#![tactic(auto)]

ghost use Rattle.std.specs.Prelude.{◌≡◌, [], ◌∷◌};
ghost use Rattle.format.specs.Parts.{Kind, transport_variant, transport_rule, source_rule};
ghost use Rattle.format.specs.Writer.{write_answer, draft_after, addition};
ghost use Rattle.add_variant_and_references.specs.References.{NamesRule};

use format::Refusal;
use write_bytes::Buffer;
use write_section::heads::subsection_head;
use write_section::not_fitting;
use write_subsection::add_subsection;

// Adds 12/0001, the transport variant.
pub fn transport_variant(draft: &mut [u8], variant: &[u8]) -> Result<u32, Refusal>
    ensures answer { result ≡ write_answer (addition transport_variant (variant.now ∷ []) draft.old) }
    ensures draft { draft.new ≡ draft_after (addition transport_variant (variant.now ∷ []) draft.old) draft.old }
{
    let Ok(count) = u8::try_from(variant.len()) else {
        return not_fitting(draft);
    };
    let mut part = Buffer::<263>::new();
    part.put(&subsection_head(0x0001, 8 + u16::from(count)));
    part.put(&[0, 0, count]);
    part.put(variant);
    add_subsection(draft, 0x12, part.as_mut_slice())
}

// Adds the subsection of section 12 with this tag, which holds a Rule ID.
fn referenced_rule(draft: &mut [u8], tag: u16, rule_id: &[u8]) -> Result<u32, Refusal>
    ensures answer { (k : Kind) → NamesRule k tag → result ≡ write_answer (addition k (rule_id.now ∷ []) draft.old) }
    ensures draft { (k : Kind) → NamesRule k tag → draft.new ≡ draft_after (addition k (rule_id.now ∷ []) draft.old) draft.old }
{
    if rule_id.len() != 8 {
        return not_fitting(draft);
    }
    let mut reference = Buffer::<14>::new();
    reference.put(&subsection_head(tag, 14));
    reference.put(&[0]);
    reference.put(rule_id);
    add_subsection(draft, 0x12, reference.as_mut_slice())
}

// Adds 12/0002, the transport rule: its Rule ID.
pub fn transport_rule(draft: &mut [u8], rule_id: &[u8]) -> Result<u32, Refusal>
    ensures answer { result ≡ write_answer (addition transport_rule (rule_id.now ∷ []) draft.old) }
    ensures draft { draft.new ≡ draft_after (addition transport_rule (rule_id.now ∷ []) draft.old) draft.old }
{
    referenced_rule(draft, 0x0002, rule_id)
}

// Adds 12/0004, the source rule: its Rule ID.
pub fn source_rule(draft: &mut [u8], rule_id: &[u8]) -> Result<u32, Refusal>
    ensures answer { result ≡ write_answer (addition source_rule (rule_id.now ∷ []) draft.old) }
    ensures draft { draft.new ≡ draft_after (addition source_rule (rule_id.now ∷ []) draft.old) draft.old }
{
    referenced_rule(draft, 0x0004, rule_id)
}
