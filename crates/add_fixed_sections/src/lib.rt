// Public: the additions of the three sections of a fixed length to a lent draft: a rule, the name, the information. Each makes
// the section's bytes in an array of its own and adds them. The calls ask nothing.
// All contracts here are one but for the kind and its fields: the answer is `write_answer (addition KIND FIELDS draft)`, and
// the draft then holds `draft_after` of the same.
#![tactic(auto)]

ghost use Rattle.std.specs.Prelude.{◌≡◌, ◌∷◌, []};
ghost use Rattle.format.specs.Parts as Parts;
ghost use Rattle.format.specs.Writer.{write_answer, draft_after, addition, rule_fields, information_fields};

use format::{INFORMATION_FIELDS, RULE_FIELDS, Refusal};
use write_bytes::Buffer;
use write_section::heads::section_head;
use write_section::{add_section, not_fitting};

// Section 12, a rule: an id of 8 bytes, and the rule's values. Subsections are added after it.
pub fn rule(
    draft: &mut [u8],
    rule_id: &[u8],
    flags: u32,
    generated_length: u8,
    key_check: u8,
    symmetric_format: u8,
    asymmetric_format: u8,
) -> Result<u32, Refusal>
    ensures answer { result ≡ write_answer (addition Parts.rule (rule_fields rule_id.now flags generated_length key_check symmetric_format asymmetric_format) draft.old) }
    ensures draft { draft.new ≡ draft_after (addition Parts.rule (rule_fields rule_id.now flags generated_length key_check symmetric_format asymmetric_format) draft.old) draft.old }
{
    if rule_id.len() != 8 {
        return not_fitting(draft);
    }
    let mut part = Buffer::<RULE_FIELDS>::new();
    part.put(&section_head(0x12, RULE_FIELDS as u16));
    part.put(rule_id);
    part.put(&flags.to_be_bytes());
    part.put(&[generated_length, key_check]);
    part.put(&[symmetric_format, asymmetric_format]);
    add_section(draft, part.as_mut_slice())
}

// Section 13, the name: 64 bytes.
pub fn name(draft: &mut [u8], name: &[u8]) -> Result<u32, Refusal>
    ensures answer { result ≡ write_answer (addition Parts.name (name.now ∷ []) draft.old) }
    ensures draft { draft.new ≡ draft_after (addition Parts.name (name.now ∷ []) draft.old) draft.old }
{
    if name.len() != 64 {
        return not_fitting(draft);
    }
    let mut part = Buffer::<68>::new();
    part.put(&section_head(0x13, 68));
    part.put(name);
    add_section(draft, part.as_mut_slice())
}

// Section 14, the information: its flags. Subsections are added after it.
pub fn information(draft: &mut [u8], flags: u32) -> Result<u32, Refusal>
    ensures answer { result ≡ write_answer (addition Parts.information (information_fields flags) draft.old) }
    ensures draft { draft.new ≡ draft_after (addition Parts.information (information_fields flags) draft.old) draft.old }
{
    let mut part = Buffer::<INFORMATION_FIELDS>::new();
    part.put(&section_head(0x14, INFORMATION_FIELDS as u16));
    part.put(&[0; 2]);
    part.put(&flags.to_be_bytes());
    add_section(draft, part.as_mut_slice())
}
