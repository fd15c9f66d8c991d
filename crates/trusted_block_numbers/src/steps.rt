// A step of the walk as the numbers that a host program in C gets.
ghost use Rattle.std.specs.Prelude.{◌≡◌};
ghost use Rattle.format.specs.GivenNumbers.{step_number, row_answer, step_second, row_kind, row_offset, row_length, row_owner, row_rule, next_of};

use crate::give;
use format::refusals::NOT_THERE;
use format::{Refusal, RowStep};

// The numbers of a step.
pub fn give_step(
    s: Result<Option<RowStep>, Refusal>,
    second: &mut u32,
    kind: &mut u32,
    offset: &mut u32,
    length: &mut u32,
    owner: &mut u32,
    rule: &mut u32,
    next: &mut u32,
) -> u32
    ensures number { result ≡ step_number s }
    ensures second { second.new ≡ step_second s }
    ensures kind { kind.new ≡ row_kind s }
    ensures offset { offset.new ≡ row_offset s }
    ensures length { length.new ≡ row_length s }
    ensures owner { owner.new ≡ row_owner s }
    ensures rule { rule.new ≡ row_rule s }
    ensures next { next.new ≡ next_of s }
{
    let Ok(Some(step)) = s else {
        *kind = 0;
        *offset = 0;
        *length = 0;
        *owner = 0;
        *rule = 0;
        *next = 0;
        return give(s.map(|_| 0), second);
    };
    *second = 0;
    *kind = step.row.kind;
    *offset = step.row.offset;
    *length = step.row.length;
    *owner = step.row.owner;
    *rule = step.row.rule;
    *next = step.next;
    0
}

// The numbers of a row that is asked for by its number, where the walk to it came to this step: behind the last row there is
// none.
#[tactic(auto, unfolding(format::specs::GivenNumbers::step_number, format::specs::GivenNumbers::row_answer))]
pub fn give_row(
    s: Result<Option<RowStep>, Refusal>,
    second: &mut u32,
    kind: &mut u32,
    offset: &mut u32,
    length: &mut u32,
    owner: &mut u32,
    rule: &mut u32,
    next: &mut u32,
) -> u32
    ensures number { result ≡ row_answer s }
    ensures second { second.new ≡ step_second s }
    ensures kind { kind.new ≡ row_kind s }
    ensures offset { offset.new ≡ row_offset s }
    ensures length { length.new ≡ row_length s }
    ensures owner { owner.new ≡ row_owner s }
    ensures rule { rule.new ≡ row_rule s }
    ensures next { next.new ≡ next_of s }
{
    let number = give_step(s, second, kind, offset, length, owner, rule, next);
    match s {
        Ok(None) => NOT_THERE,
        _ => number,
    }
}
