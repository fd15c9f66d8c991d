// Internal: the draft with a part after it. The part is put in its place, and taken out again where the longer draft is
// refused, so that a refusal changes nothing.
#![tactic(auto)]

ghost use Rattle.std.specs.Prelude.{◌≡◌, ◌+◌, ◌<◌, ◌≤◌, length};
ghost use Rattle.std.proofs.lemmas.List.Edits.{sets};
ghost use Rattle.format.specs.Bytes.{bytes_at};
ghost use Rattle.format.specs.Writer.{write_answer, draft_after};
ghost use Rattle.format.proofs.Changes.{restate};
ghost use Rattle.write_appended_part.specs.Appended.{Standing, appended};

use format::refusals::NO_ROOM;
use format::{LONGEST, Refusal};
use read_fields::two;
use reading::draft::read_draft;

// Another length in the part at a place.
pub fn state_length(bytes: &mut [u8], at: usize, n: usize)
    requires { (at + 4 ≤ length bytes.old) × (n < 65536) }
    ensures { bytes.new ≡ restate at n bytes.old }
{
    bytes[at + 2..at + 4].copy_from_slice(&(n as u16).to_be_bytes());
}

// Exchanges a part with the bytes after the draft's first l, and states two lengths: n in the header, and m in the section
// at a place, which is the header again where a section is added. A second exchange with the old lengths undoes the first.
fn exchange_part(draft: &mut [u8], l: usize, section: usize, n: usize, m: usize, part: &mut [u8])
    requires { (l + length part.old ≤ length draft.old) × (section + 4 ≤ length draft.old) × (n < 65536) × (m < 65536) }
    ensures draft { draft.new ≡ restate section m (restate 0 n (sets draft.old l part.old)) }
    ensures part { part.new ≡ bytes_at draft.old l (length part.old) }
{
    draft[l..l + part.len()].swap_with_slice(part);
    state_length(draft, 0, n);
    state_length(draft, section, m);
}

// Puts a part after the draft: 23, then what reading the longer draft gives. The part is lent for the exchange.
pub fn append(draft: &mut [u8], section: usize, part: &mut [u8]) -> Result<u32, Refusal>
    requires { Standing draft.old section }
    ensures answer { result ≡ write_answer (appended draft.old section part.old) }
    ensures draft { draft.new ≡ draft_after (appended draft.old section part.old) draft.old }
{
    let l = two(draft, 2);
    let k = part.len();
    if LONGEST - l < k {
        return Err(Refusal::at(NO_ROOM, l));
    }
    if draft.len() - l < k {
        return Err(Refusal::at(NO_ROOM, l));
    }
    let n = l + k;
    let m = two(draft, section + 2);
    exchange_part(draft, l, section, n, m + k, part);
    if let Err(refusal) = read_draft(&draft[..n]) {
        exchange_part(draft, l, section, l, m, part);
        return Err(refusal);
    }
    Ok(n as u32)
}
