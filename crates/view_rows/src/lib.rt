// Internal: the fields and the rows of a token that the reading accepts, found by going over its parts. The loops are no `for`: a
// step is as long as the part states.
#![tactic(auto)]

ghost use Rattle.std.specs.Prelude.{◌≡◌};
ghost use Rattle.format.specs.Views.{field_at, step_at};
ghost use Rattle.view_rows.specs.Walk.{Whole, Starts, BeginsAt, RowAt, Behind};

use format::refusals::NOT_THERE;
use format::{Refusal, Row, RowStep, Span};
use read_fields::two;
use read_rows::{own_length, rule_in, rules_with};
use view_layouts::slot_at;

// A place where a part of the token begins, or its end: the id, the row and the end of the section before it, and how
// many rows and rules come before.
#[derive(Clone, Copy)]
pub struct Place {
    pub at: usize,
    pub end: usize,
    pub id: u8,
    pub row: usize,
    pub owner: usize,
    pub rules: u32,
}

impl Place {
    // The place of the first part: no section stands before it.
    fn first() -> Place
        ensures { Starts result }
    {
        Place {
            at: 8,
            end: 8,
            id: 0,
            row: 0,
            owner: 0,
            rules: 0,
        }
    }

    // The row of the part at this place.
    fn part_row(self, s: &[u8]) -> Row
        requires { BeginsAt s.now self }
        ensures { RowAt s.now self result }
    {
        let at = self.at;
        let length = two(s, at + 2);
        if at == self.end {
            let id = s[at];
            let rules = rules_with(id, self.rules);
            return Row {
                kind: u32::from(id) * 65536,
                offset: at as u32,
                length: length as u32,
                owner: self.row as u32,
                rule: rule_in(id, rules),
            };
        }
        Row {
            kind: u32::from(self.id) * 65536 + two(s, at) as u32,
            offset: at as u32,
            length: length as u32,
            owner: self.owner as u32,
            rule: rule_in(self.id, self.rules),
        }
    }

    // The place after the part at this one.
    fn behind(self, s: &[u8]) -> Place
        requires { BeginsAt s.now self }
        ensures { Behind s.now self result }
    {
        let at = self.at;
        let length = two(s, at + 2);
        if at == self.end {
            let id = s[at];
            return Place {
                at: at + own_length(id, length),
                end: at + length,
                id,
                row: self.row + 1,
                owner: self.row,
                rules: rules_with(id, self.rules),
            };
        }
        Place {
            at: at + length,
            row: self.row + 1,
            ..self
        }
    }
}

// Where a field of a row lies.
pub fn field_in(s: &[u8], row: usize, field: usize) -> Result<Span, Refusal>
    requires { Whole s.now }
    ensures { result ≡ field_at s.now row field }
{
    let mut p = Place::first();
    while p.at < s.len() {
        let there = p.row == row;
        if there {
            return slot_at(s, p.at, p.part_row(s).kind, field);
        }
        p = p.behind(s);
    }
    Err(Refusal::at(NOT_THERE, 0))
}

// The row that begins at a place, with the place of the next.
pub fn step_in(s: &[u8], at: usize) -> Result<Option<RowStep>, Refusal>
    requires { Whole s.now }
    ensures { result ≡ step_at s.now at }
{
    if at > s.len() {
        return Err(Refusal::at(NOT_THERE, 0));
    }
    let mut p = Place::first();
    while p.at < at {
        p = p.behind(s);
    }
    if p.at != at {
        return Err(Refusal::at(NOT_THERE, 0));
    }
    if at == s.len() {
        return Ok(None);
    }
    Ok(Some(RowStep {
        row: p.part_row(s),
        next: p.behind(s).at as u32,
    }))
}
