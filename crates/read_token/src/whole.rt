// Internal: the sections of a token (full) or of a draft, one after another.
ghost use Rattle.std.specs.Prelude.{◌≡◌, ◌+◌, ◌≤◌, length};
ghost use Rattle.format.specs.Rules.{longest};
ghost use Rattle.read_token.specs.Progress.{sections_answer};

use crate::other::other_at;
use crate::runs::rules;
use format::Refusal;
use format::refusals::{MISSING, SECTION_LENGTH};
use read_fields::two;
use read_sections::part::PartBytes;

// The sections of s from place 8 on.
pub fn sections_of(s: &[u8], external: bool, full: bool) -> Result<u32, Refusal>
    requires { (8 ≤ length s.now) × (length s.now ≤ longest) }
    ensures { result ≡ sections_answer s.now full external }
{
    let mut seen = [false; 0x16];
    let mut p: usize = 8;
    let mut rows: u32 = 0;
    // A `for` is no plainer: the step is the length that the section states.
    while p < s.len() {
        if s.len() < p + 4 {
            return Err(Refusal::at(SECTION_LENGTH, p));
        }
        let id = s[p];
        if id == 0x12 {
            let run = rules(s, p, rows, full)?;
            p = run.end;
            rows = run.rows;
            continue;
        }
        rows += other_at(PartBytes::section(s, p), external, full, &seen)?;
        seen[usize::from(id)] = true;
        p += two(s, p + 2);
    }
    if full && !seen[0x14] {
        return Err(Refusal::at(MISSING, p));
    }
    Ok(rows)
}
