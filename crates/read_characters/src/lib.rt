// Internal: characters by the page of them, Rule IDs and label templates. Each function asks that its bytes are there.
#![tactic(auto)]

pub mod page; // page.rt: the page of characters

ghost use Rattle.std.specs.Prelude.{◌≡◌, not, ◌&&◌, ℕ, ◌+◌, ◌≤◌, length, drop};
ghost use Rattle.format.specs.Bytes.{every, bytes_at};
ghost use Rattle.format.specs.Forms.{digit, space, in_label, one_star, rule_id_form, rule_id_reach, label_form, label_reach};
ghost use Rattle.read_characters.specs.Classes.{class_of};
ghost use Rattle.read_characters.specs.Templates.{place_after, template_length};

use crate::page::{DIGIT, IN_RULE_ID, LABEL_SIGN, LETTER, Page, RULE_SIGN, SPACE, STAR};

// The eight bytes at i are a Rule ID: characters of one, at least one, then spaces to the end. By the first hexadecimal digits
// of their marks: a 6, and after it none that is less than the one before. All are looked at, with no way out of the loop, since
// the length of the next ID cannot be foreseen.
pub fn rule_id_form(s: &[u8], page: &Page, i: usize) -> bool
    requires { i + 8 ≤ length s.now }
    ensures { result ≡ rule_id_form (bytes_at s.now i 8) }
{
    let first = page.character(s[i]) / 16;
    let mut before = first;
    let mut falls = false;
    for b in &s[i + 1..i + 8] {
        let c = page.character(*b) / 16;
        falls |= c < before;
        before = c;
    }
    !falls && first == IN_RULE_ID
}

// Where a field that has n characters cannot go on: after the spaces behind them; 0 where it has none.
fn place_after(field: &[u8], page: &Page, n: usize) -> usize
    requires { n ≤ length field.now }
    ensures { (result ≡ place_after n field.now) × (result ≤ length field.now) }
{
    if n == 0 {
        return 0;
    }
    n + page.leading(&field[n..], SPACE, SPACE)
}

// Where no Rule ID can go on in the eight bytes at i, which are none: after its characters and the spaces after them; 0 where it
// has no character. It makes the page itself: so the compiler leaves it out of the loop over the rules, which it slowed by a
// tenth inside.
pub fn rule_id_place(s: &[u8], i: usize) -> usize
    requires { i + 8 ≤ length s.now }
    ensures { (result ≡ rule_id_reach (bytes_at s.now i 8)) × (result ≤ 8) }
{
    let page = Page::new();
    let field = &s[i..i + 8];
    let n = page.leading(field, LETTER, RULE_SIGN);
    place_after(field, &page, n)
}

// The bytes are spaces. They are compared with that one value, many in a step: looked up one by one, the spaces of a label
// template take longer than all else of it.
fn only_spaces(bytes: &[u8]) -> bool
    ensures { result ≡ every space bytes.now }
{
    bytes.iter().fold(true, |only, b| only & (*b == b' '))
}

// A character of this class may stand first in a label template: a letter, # $ @ or a star.
#[tactic(auto, using(crate::proofs::Classes::first_class_is))]
fn may_be_first(c: u8) -> bool
    ensures { (b : ℕ) → c ≡ class_of b → result ≡ (in_label b && not (digit b)) }
{
    matches!(c, LETTER | LABEL_SIGN | STAR)
}

// 1 where a star stands at the front, else 0.
#[tactic(auto, using(crate::proofs::Templates::star_there, crate::proofs::Templates::none_there))]
fn one_star(bytes: &[u8], page: &Page) -> usize
    ensures { (result ≡ one_star bytes.now) × (result ≤ length bytes.now) }
{
    match bytes {
        [b, ..] if page.character(*b) == STAR => 1,
        _ => 0,
    }
}

// How many characters of a label template stand at the front: one that may be first, letters, digits and # $ @, and a star where
// the first is none.
fn template_length(field: &[u8], page: &Page) -> usize
    requires { 1 ≤ length field.now }
    ensures { (result ≡ template_length field.now) × (result ≤ length field.now) }
{
    let first = page.character(field[0]);
    if !may_be_first(first) {
        return 0;
    }
    let n = 1 + page.leading(&field[1..], LABEL_SIGN, DIGIT);
    let starred = first == STAR;
    if starred {
        return n;
    }
    n + one_star(&field[n..], page)
}

// The 64 bytes at i are a label template: letters, digits, # $ @ and a star, the first no digit, the star first or last; then
// spaces to the end.
pub fn label_form(s: &[u8], page: &Page, i: usize) -> bool
    requires { i + 64 ≤ length s.now }
    ensures { result ≡ label_form (bytes_at s.now i 64) }
{
    let field = &s[i..i + 64];
    let n = template_length(field, page);
    n != 0 && only_spaces(&field[n..])
}

// Where no label template can go on in the 64 bytes at i, which are none: after what may stand in one up to there; 0 where the
// first character may not be first.
pub fn label_place(s: &[u8], i: usize) -> usize
    requires { i + 64 ≤ length s.now }
    ensures { (result ≡ label_reach (bytes_at s.now i 64)) × (result ≤ 64) }
{
    let page = Page::new();
    let field = &s[i..i + 64];
    place_after(field, &page, template_length(field, &page))
}
