// Internal: the header of a token or a draft.
ghost use Rattle.std.specs.Prelude.{◌≡◌, ◌≤◌, length};
ghost use Rattle.format.specs.Parts.{known_id};
ghost use Rattle.format.specs.Reading.{length_allowed, header_checks};
ghost use Rattle.read_sections.specs.Refusals.{first_refusal};

use format::refusals::{
    HEADER_LENGTH, HEADER_RESERVED, HEADER_VERSION, SHORT_HEADER, UNKNOWN_TOKEN,
};
use format::{LONGEST, Refusal};
use read_fields::{four, two};

// External or internal.
fn known_id(id: u8) -> bool
    ensures { result ≡ known_id id }
{
    matches!(id, 0x1E | 0x1F)
}

// Whether the stated length is allowed: a token's is that of its buffer, a draft's at least 8 and no more than there is.
fn length_allowed(s: &[u8], full: bool) -> bool
    requires { 8 ≤ length s.now }
    ensures { result ≡ length_allowed full s.now }
{
    let n = two(s, 2);
    let above = LONGEST < n;
    if above {
        return false;
    }
    if full {
        return n == s.len();
    }
    let below = n < 8;
    if below {
        return false;
    }
    n <= s.len()
}

// The first refusal of the header, of a token (full) or of a draft.
pub fn header(s: &[u8], full: bool) -> Result<(), Refusal>
    ensures { result ≡ first_refusal 0 (header_checks full s.now) }
{
    if s.len() < 8 {
        return Err(Refusal::at(SHORT_HEADER, 0));
    }
    if !known_id(s[0]) {
        return Err(Refusal::at(UNKNOWN_TOKEN, 0));
    }
    if s[1] != 0 {
        return Err(Refusal::at(HEADER_VERSION, 1));
    }
    if !length_allowed(s, full) {
        return Err(Refusal::at(HEADER_LENGTH, 2));
    }
    if four(s, 4) != 0 {
        return Err(Refusal::at(HEADER_RESERVED, 4));
    }
    Ok(())
}
