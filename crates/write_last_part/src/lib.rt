// Internal: the parts of a draft, passed by the lengths that they state, which costs little against a reading.
#![tactic(auto)]

ghost use Rattle.std.specs.Prelude.{false, ◌≤◌, length};
ghost use Rattle.format.specs.Rules.{longest};
ghost use Rattle.write_last_part.specs.Tiling.{Twenties, LastOf, LastSection};

use format::RULE_FIELDS;
use read_fields::two;
use read_token::header::header;

// What stepping from part to part finds: where the last part begins, that there is none, or that the parts do not end
// where the bytes do.
#[derive(Clone, Copy, Debug, PartialEq, Eq)]
pub enum Last {
    At(usize),
    Empty,
    Broken,
}

// The last of the parts of 20 bytes that follow each other from the place p on. Such are the rules without subsections, of
// which a long draft has many: a step by a known number need not wait for the bytes that state it. Its near twin,
// `after_bare_rules` of write_judged_section, asks for the id as well: one function for both would take what it asks for as a
// closure, whose contract is no plainer.
fn last_twenty(s: &[u8], p: usize) -> usize
    requires { Twenties s.now p p × (length s.now ≤ longest) }
    ensures { Twenties s.now p result }
{
    let mut q = p;
    while q + 2 * RULE_FIELDS <= s.len() && two(s, q + RULE_FIELDS + 2) == RULE_FIELDS {
        q += RULE_FIELDS;
    }
    q
}

// The last of the parts that follow each other from the place first to the end.
pub fn last_part(s: &[u8], first: usize) -> Last
    requires { (first ≤ length s.now) × (length s.now ≤ longest) }
    ensures { LastOf s.now first result }
{
    let mut last = first;
    let mut p = first;
    // No iterator is plainer: a step is the length that the part states.
    while p < s.len() {
        if s.len() - p < 4 {
            return Last::Broken;
        }
        let n = two(s, p + 2);
        let short = n < 4;
        if short {
            return Last::Broken;
        }
        if s.len() - p < n {
            return Last::Broken;
        }
        last = if n == RULE_FIELDS {
            last_twenty(s, p)
        } else {
            p
        };
        p = last + n;
    }
    if p == first {
        return Last::Empty;
    }
    Last::At(last)
}

// The last section of a draft.
pub fn last_section(draft: &[u8]) -> Last
    ensures { LastSection draft.now result }
{
    let Ok(()) = header(draft, false) else {
        return Last::Broken;
    };
    let n = two(draft, 2);
    last_part(&draft[..n], 8)
}
