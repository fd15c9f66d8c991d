// The reading of a lent draft: only its first bytes, as many as its header states, and under all rules but 20.
ghost use Rattle.std.specs.Prelude.{◌≡◌, false};
ghost use Rattle.format.specs.Reading.{reading, row_count, as_answer};

use format::Refusal;
use read_fields::two;
use read_token::header::header;
use read_token::whole::sections_of;

// The answer of reading a lent draft: the rows of its parts, or the first fault and its place.
pub fn read_draft(draft: &[u8]) -> Result<u32, Refusal>
    ensures { result ≡ as_answer row_count (reading false draft.now) }
{
    header(draft, false)?;
    let n = two(draft, 2);
    sections_of(&draft[..n], draft[0] == 0x1E, false)
}
