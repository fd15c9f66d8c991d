// Internal: the rules that follow each other. Only this function keeps Rule IDs and makes the page of characters, so that a
// token without rules pays for neither. The other kinds stand once each, so there are at most five runs, and the IDs of earlier
// runs are put in again.
ghost use Rattle.std.specs.Prelude.{◌≡◌, Bool, List, [], ◌∷◌, ◌++◌, ◌+◌, ◌<◌, ◌≤◌, length, drop};
ghost use Rattle.format.specs.Bytes.{number, bytes_at};
ghost use Rattle.format.specs.Rules.{longest, Section};
ghost use Rattle.format.specs.Reading.{stated};
ghost use Rattle.read_rules.specs.Ids.{Held};
ghost use Rattle.read_token.specs.Progress.{Stands, Ahead, Noting, SectionsRead, SomeRead, Ran};

use format::Refusal;
use format::refusals::SECTION_LENGTH;
use read_characters::page::Page;
use read_fields::{eight, two};
use read_rule_ids::RuleIds;
use read_rules::rule_at;
use read_sections::part::PartBytes;

// A run of rules that is read: the place after it, and the rows so far.
#[derive(Clone, Copy)]
pub(crate) struct Run {
    pub end: usize,
    pub rows: u32,
}

// Puts the Rule ID of the section at q into the set, if it is a rule.
fn note(s: &[u8], ids: &mut RuleIds, q: usize)
    requires { Noting s.now q ids.old }
    ensures { (before : List Section) (c : Section) → Stands (drop q s.now) c → Held before q ids.old → Held (before ++ c ∷ []) (q + stated (drop q s.now)) ids.new }
{
    if s[q] == 0x12 {
        let _seen = ids.put(eight(s, q + 4));
    }
}

// Puts the Rule IDs of the rules before p into the set, which is empty.
fn note_before(s: &[u8], ids: &mut RuleIds, p: usize)
    requires { (length s.now ≤ longest) × (p ≤ length s.now) × Held [] 8 ids.old × ((before : List Section) × Ahead s.now 8 before p) }
    ensures { (before : List Section) → Ahead s.now 8 before p → Held before p ids.new }
{
    let mut q: usize = 8;
    // A `for` is no plainer: the step is the length that the section states. So it is below.
    while q < p {
        note(s, ids, q);
        q += two(s, q + 2);
    }
}

// The rules that follow each other from the rule at first on, after the rows so far.
pub(crate) fn rules(s: &[u8], first: usize, rows: u32, full: bool) -> Result<Run, Refusal>
    requires { (first + 4 ≤ length s.now) × (length s.now ≤ longest) × (number (bytes_at s.now first 1) ≡ 0x12) × SomeRead s.now full first rows }
    ensures { (x : Bool) (seen : List Bool) → SectionsRead s.now full x first rows seen → Ran s.now full x seen first result }
{
    let page = Page::new();
    let mut ids = RuleIds::new();
    note_before(s, &mut ids, first);
    let mut p = first;
    let mut n = rows;
    while p < s.len() {
        if s.len() < p + 4 {
            return Err(Refusal::at(SECTION_LENGTH, p));
        }
        if s[p] != 0x12 {
            return Ok(Run { end: p, rows: n });
        }
        n += rule_at(PartBytes::section(s, p), &page, &mut ids, full)?;
        p += two(s, p + 2);
    }
    Ok(Run { end: p, rows: n })
}
