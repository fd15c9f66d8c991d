// Internal: the place after a draft of a section that may stand only once, so that it can be judged before it is written.
#![tactic(auto)]

ghost use Rattle.std.specs.Prelude.{◌≡◌, ℕ, ◌+◌, ◌≤◌, length, drop};
ghost use Rattle.format.specs.Rules.{longest};
ghost use Rattle.format.specs.Reading.{as_answer};
ghost use Rattle.write_last_part.specs.Tiling.{Tiled};
ghost use Rattle.write_judged_section.specs.Placing.{PassedTo, StandsIn, place_for};

use format::refusals::{NO_ROOM, REPEATED_SECTION};
use format::{LONGEST, RULE_FIELDS, Refusal};
use read_fields::two;
use reading::draft::read_draft;

// The end of the rules of 20 bytes that follow each other from the place p on. A long draft has many, and a step by a known
// number need not wait for the bytes that state it. Its near twin, `last_twenty` of write_last_part, need not ask for the id.
fn after_bare_rules(s: &[u8], p: usize) -> usize
    requires { (p ≤ length s.now) × (length s.now ≤ longest) }
    ensures { (p ≤ result) × (result ≤ length s.now) × ((i : ℕ) → (0x12 ≡ i → ⊥) → PassedTo i (drop result s.now) (drop p s.now)) }
{
    let mut q = p;
    while q + RULE_FIELDS <= s.len() && s[q] == 0x12 && two(s, q + 2) == RULE_FIELDS {
        q += RULE_FIELDS;
    }
    q
}

// A section with the id, which is not that of a rule, stands among the sections of a draft.
fn stands(s: &[u8], id: u8) -> bool
    requires { (8 ≤ length s.now) × (length s.now ≤ longest) × Tiled (drop 8 s.now) × (0x12 ≡ id → ⊥) }
    ensures { StandsIn (drop 8 s.now) id result }
{
    let mut p = after_bare_rules(s, 8);
    // No iterator is plainer: a step is the length that the section states.
    while p < s.len() {
        if s[p] == id {
            return true;
        }
        let n = two(s, p + 2);
        p = after_bare_rules(s, p + n);
    }
    false
}

// The place after the draft of a section with the id and n bytes: the draft's own fault, 23, then 9.
pub fn place_for(draft: &[u8], id: u8, n: usize) -> Result<u32, Refusal>
    requires { 0x12 ≡ id → ⊥ }
    ensures { result ≡ as_answer (λ l. l) (place_for id n draft.now) }
{
    read_draft(draft)?;
    let l = two(draft, 2);
    if LONGEST - l < n {
        return Err(Refusal::at(NO_ROOM, l));
    }
    if draft.len() - l < n {
        return Err(Refusal::at(NO_ROOM, l));
    }
    if stands(&draft[..l], id) {
        return Err(Refusal::at(REPEATED_SECTION, l));
    }
    Ok(l as u32)
}
