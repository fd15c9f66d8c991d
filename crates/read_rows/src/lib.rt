// Internal: the second pass over an accepted token, which fills a lent table row by row and tests nothing again.
#![tactic(auto)]

ghost use Rattle.std.specs.Prelude.{◌≡◌, ◌+◌, ◌*◌, ◌^◌, ◌<◌, ◌≤◌};
ghost use lib.ListN.{length};
ghost use Rattle.std.proofs.lemmas.List.Edits.{sets};
ghost use Rattle.format.specs.Table.{row_numbers};
ghost use Rattle.read_rows.specs.Filling.{Fillable, IsFilled, Subsections, SubsectionsFilled, bare_rule};
ghost use Rattle.read_rows.specs.Places.{own_length, rules_with, rule_in};

use format::{COLUMNS, INFORMATION_FIELDS, RULE_FIELDS, Row};
use read_fields::two;

// The bytes of a section's own fields, where it states that length.
pub fn own_length(id: u8, length: usize) -> usize
    ensures { result ≡ own_length id length }
{
    match id {
        0x12 => RULE_FIELDS,
        0x14 => INFORMATION_FIELDS,
        _ => length,
    }
}

// The rules up to a section with this id, those before it given.
pub fn rules_with(id: u8, rules: u32) -> u32
    requires { rules + 1 < 2 ^ 32 }
    ensures { result ≡ rules_with id rules }
{
    if id == 0x12 { rules + 1 } else { rules }
}

// The number of the rule that a section with this id is, and 0 for another section, the rules up to it given.
pub fn rule_in(id: u8, rules: u32) -> u32
    ensures { result ≡ rule_in id rules }
{
    if id == 0x12 { rules } else { 0 }
}

// Row n of the table. Its numbers are stored one by one: copied from an array they took half as long again.
fn put_row(table: &mut [u32], n: usize, row: Row)
    requires { 5 * n + 5 ≤ lib.ListN.length table.old }
    ensures { table.new ≡ sets table.old (5 * n) (row_numbers row) }
{
    let i = COLUMNS * n;
    table[i] = row.kind;
    table[i + 1] = row.offset;
    table[i + 2] = row.length;
    table[i + 3] = row.owner;
    table[i + 4] = row.rule;
}

// The rows of the subsections of a section, the first of which is at p. The result is how many rows then are in the table.
fn put_subsections(s: &[u8], table: &mut [u32], p: usize, section: Row) -> usize
    requires { Subsections s.now table.old (section.owner + 1) p section }
    ensures { SubsectionsFilled s.now table.old table.new p section result }
{
    let e = section.offset as usize + section.length as usize;
    let mut q = p;
    let mut n = section.owner as usize + 1;
    // A `for` is no plainer: the step is the length that the subsection states.
    while q < e {
        let length = two(s, q + 2);
        let subsection = Row {
            kind: section.kind + two(s, q) as u32,
            offset: q as u32,
            length: length as u32,
            ..section
        };
        put_row(table, n, subsection);
        n += 1;
        q += length;
    }
    n
}

// Whether a section with this id and length is a rule without subsections.
fn is_bare_rule(id: u8, length: usize) -> bool
    ensures { result ≡ bare_rule id length }
{
    id == 0x12 && length == RULE_FIELDS
}

// The rows of a token that the reading accepts, from the start of the table on. A rule without subsections goes by itself: the
// next part is then found without waiting for the length.
pub fn fill(s: &[u8], table: &mut [u32])
    requires { Fillable s.now table.old }
    ensures { IsFilled s.now table.old table.new }
{
    let mut p: usize = 8;
    let mut rules: u32 = 0;
    let mut n: usize = 0;
    // A `for` is no plainer: the step is the length that the section states.
    while p < s.len() {
        let id = s[p];
        let length = two(s, p + 2);
        rules = rules_with(id, rules);
        if is_bare_rule(id, length) {
            let rule = Row {
                kind: 0x120000,
                offset: p as u32,
                length: RULE_FIELDS as u32,
                owner: n as u32,
                rule: rules,
            };
            put_row(table, n, rule);
            n += 1;
            p += RULE_FIELDS;
            continue;
        }
        let section = Row {
            kind: u32::from(id) * 65536,
            offset: p as u32,
            length: length as u32,
            owner: n as u32,
            rule: rule_in(id, rules),
        };
        put_row(table, n, section);
        n = put_subsections(s, table, p + own_length(id, length), section);
        p += length;
    }
}
