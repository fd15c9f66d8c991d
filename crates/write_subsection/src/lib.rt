// Internal: the addition of a subsection to the last section of a draft, as bytes. What is added is lent as it is to stand in
// the draft.
#![tactic(auto)]

ghost use Rattle.std.specs.Prelude.{◌≡◌, true, false, [], ◌+◌, ◌-◌, ◌≤◌, length, take, drop};
ghost use Rattle.format.specs.Bytes.{Bytes};
ghost use Rattle.format.specs.Parts.{external};
ghost use Rattle.format.specs.Rules.{longest};
ghost use Rattle.format.specs.Reading.{as_answer, id_of, stated, header_checks, row_count};
ghost use Rattle.format.proofs.Turns.{sections_from};
ghost use Rattle.format.proofs.Tests.{Hold};
ghost use Rattle.format.specs.Writer.{write_answer, draft_after};
ghost use Rattle.write_last_part.specs.Tiling.{LastAt};
ghost use Rattle.write_appended_part.specs.Appended.{appended};
ghost use Rattle.write_section.specs.Adding.{own_first, subsection_added};
ghost use Rattle.write_subsection.specs.LastSection.{holds_subsections, fixed_fields, LastOpen, moved};

use format::refusals::{NO_ROOM, NO_SECTION};
use format::{INFORMATION_FIELDS, RULE_FIELDS, Refusal};
use read_fields::two;
use read_token::whole::sections_of;
use reading::draft::read_draft;
use write_appended_part::append;
use write_last_part::{Last, last_part, last_section};
use write_section::own_fault_or;

// The bytes of the fixed fields of a section that has subsections.
fn fixed_fields(id: u8) -> usize
    ensures { result ≡ fixed_fields id }
{
    if id == 0x12 {
        RULE_FIELDS
    } else {
        INFORMATION_FIELDS
    }
}

// The answer of the section of s at a place, the last one, read by itself as the first section of a draft: eight bytes before
// it stand for the header, and a refusal's place is moved to where the section stands.
fn last_alone(s: &[u8], place: usize) -> Result<u32, Refusal>
    requires { (8 ≤ place) × (place ≤ length s.now) × (length s.now ≤ longest) }
    ensures { result ≡ as_answer row_count (moved (place - 8) (sections_from false (external (id_of s.now)) [] 8 (drop place s.now))) }
{
    let front = place - 8;
    let answer = sections_of(&s[front..], s[0] == 0x1E, false);
    let Err(refusal) = answer else {
        return answer;
    };
    Err(Refusal {
        place: refusal.place + front as u32,
        ..refusal
    })
}

// Puts a subsection after the draft, whose own fault comes before any other refusal. Where the longer draft is refused after
// the own fields of its last section, which end at first, the draft reads up to that section, and only this one is read again.
fn append_subsection(
    draft: &mut [u8],
    place: usize,
    first: usize,
    part: &mut [u8],
) -> Result<u32, Refusal>
    requires { LastOpen draft.old place first }
    ensures answer { result ≡ write_answer (own_first draft.old (appended draft.old place part.old)) }
    ensures draft { draft.new ≡ draft_after (own_first draft.old (appended draft.old place part.old)) draft.old }
{
    let n = two(draft, 2);
    let answer = append(draft, place, part);
    let Err(refusal) = answer else {
        return answer;
    };
    let earlier = (refusal.place as usize) < first;
    if refusal.number == NO_ROOM || earlier {
        return own_fault_or(draft, refusal);
    }
    last_alone(&draft[..n], place)?;
    answer
}

// Adds the bytes of a subsection to the section at a place, the last one, where it has the given id. Where its subsections
// end where it does too, and the longer draft reads, the draft reads.
fn add_to_section(draft: &mut [u8], id: u8, place: usize, part: &mut [u8]) -> Result<u32, Refusal>
    requires { (holds_subsections id ≡ true) × Hold (header_checks false draft.old) × LastAt (take (stated draft.old) draft.old) 8 place }
    ensures answer { result ≡ write_answer (subsection_added id draft.old part.old) }
    ensures draft { draft.new ≡ draft_after (subsection_added id draft.old part.old) draft.old }
{
    let n = two(draft, 2);
    let other = draft[place] != id;
    if other {
        return own_fault_or(draft, Refusal::at(NO_SECTION, n));
    }
    let first = place + fixed_fields(id);
    if n < first {
        return read_draft(draft);
    }
    if let Last::Broken = last_part(&draft[..n], first) {
        return read_draft(draft);
    }
    append_subsection(draft, place, first, part)
}

// Adds the bytes of a subsection to the last section, which is to have the given id.
pub fn add_subsection(draft: &mut [u8], id: u8, part: &mut [u8]) -> Result<u32, Refusal>
    requires { holds_subsections id ≡ true }
    ensures answer { result ≡ write_answer (subsection_added id draft.old part.old) }
    ensures draft { draft.new ≡ draft_after (subsection_added id draft.old part.old) draft.old }
    ensures bytes { Bytes draft.old }
{
    match last_section(draft) {
        Last::Broken => read_draft(draft),
        Last::Empty => own_fault_or(draft, Refusal::at(NO_SECTION, 8)),
        Last::At(place) => add_to_section(draft, id, place, part),
    }
}
