// Internal: the addition of a section to a draft, as bytes. What is added is lent as it is to stand in the draft.
#![tactic(auto)]

pub mod heads; // heads.rt: how a part's bytes begin

ghost use Rattle.std.specs.Prelude.{◌≡◌, false, take, drop};
ghost use Rattle.format.specs.Bytes.{Bytes};
ghost use Rattle.format.specs.Reading.{stated, header_checks};
ghost use Rattle.format.proofs.Tests.{Hold};
ghost use Rattle.format.specs.Writer.{write_answer, draft_after};
ghost use Rattle.write_last_part.specs.Tiling.{Tiled};
ghost use Rattle.write_appended_part.specs.Appended.{appended};
ghost use Rattle.write_section.specs.Adding.{unfit, refused_after, own_first, section_added};

use format::Refusal;
use format::refusals::{NO_ROOM, UNFIT};
use read_fields::two;
use reading::draft::read_draft;
use write_appended_part::append;
use write_last_part::{Last, last_section};

// The answer of a call that is refused: the draft's own fault, else the refusal.
pub fn own_fault_or(draft: &[u8], refusal: Refusal) -> Result<u32, Refusal>
    ensures { result ≡ write_answer (refused_after draft.now refusal.number refusal.place) }
{
    read_draft(draft)?;
    Err(refusal)
}

// The answer where a lent field does not have its length: the draft's own fault, else 24.
pub fn not_fitting(draft: &[u8]) -> Result<u32, Refusal>
    ensures { result ≡ write_answer (unfit draft.now) }
{
    read_draft(draft)?;
    Err(Refusal::at(UNFIT, two(draft, 2)))
}

// Puts a section after the draft, whose own fault comes before any other refusal. Where the longer draft is refused at the
// added section, the draft reads, and is not read again.
fn append_section(draft: &mut [u8], part: &mut [u8]) -> Result<u32, Refusal>
    requires { Hold (header_checks false draft.old) × Tiled (drop 8 (take (stated draft.old) draft.old)) }
    ensures answer { result ≡ write_answer (own_first draft.old (appended draft.old 0 part.old)) }
    ensures draft { draft.new ≡ draft_after (own_first draft.old (appended draft.old 0 part.old)) draft.old }
{
    let n = two(draft, 2);
    let answer = append(draft, 0, part);
    let Err(refusal) = answer else {
        return answer;
    };
    let no_room = refusal.number == NO_ROOM;
    if no_room || (refusal.place as usize) < n {
        return own_fault_or(draft, refusal);
    }
    answer
}

// Adds the bytes of a section. Where the draft's sections end where it does, and the longer draft reads or is refused no
// earlier than at the added section, the draft reads: then only the longer one is read. Where they do not, the draft does not
// read, and its reading gives its fault.
pub fn add_section(draft: &mut [u8], part: &mut [u8]) -> Result<u32, Refusal>
    ensures answer { result ≡ write_answer (section_added draft.old part.old) }
    ensures draft { draft.new ≡ draft_after (section_added draft.old part.old) draft.old }
    ensures bytes { Bytes draft.old }
{
    if let Last::Broken = last_section(draft) {
        return read_draft(draft);
    }
    append_section(draft, part)
}
