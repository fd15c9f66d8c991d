// Public: the start and the finish of a lent draft. The additions stand in the crates add_.. The calls ask nothing.
#![tactic(auto)]

ghost use Rattle.std.specs.Prelude.{◌≡◌};
ghost use Rattle.format.specs.Writer.{write_answer, draft_after, start as started};

use format::Refusal;
use format::refusals::{NO_ROOM, UNKNOWN_TOKEN};
use read_fields::two;
use reading::draft::read_draft;
use reading::read;

// A draft with its header and no sections: the id, 0, the length 8, and four bytes 0.
pub fn start(draft: &mut [u8], id: u8) -> Result<u32, Refusal>
    ensures answer { result ≡ write_answer (started id draft.old) }
    ensures draft { draft.new ≡ draft_after (started id draft.old) draft.old }
{
    let short = draft.len() < 8;
    if short {
        return Err(Refusal::at(NO_ROOM, 0));
    }
    match id {
        0x1E | 0x1F => {
            draft[..8].copy_from_slice(&[id, 0, 0, 8, 0, 0, 0, 0]);
            Ok(8)
        }
        _ => Err(Refusal::at(UNKNOWN_TOKEN, 0)),
    }
}

// Finishing changes no byte: the draft's own fault, else the reading's 20, else the draft's length.
pub fn finish(draft: &[u8]) -> Result<u32, Refusal>
    ensures { result ≡ Rattle.format.specs.Writer.finish draft.now }
{
    read_draft(draft)?;
    let n = two(draft, 2);
    read(&draft[..n])?;
    Ok(n as u32)
}
