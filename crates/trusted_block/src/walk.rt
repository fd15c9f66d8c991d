// The walk over the rows of a token, and a row by its number, for host programs.
ghost use Rattle.std.specs.Prelude.{◌≡◌};
ghost use Rattle.format.specs.Views.{step_at};
ghost use Rattle.format.specs.GivenNumbers.{step_number, row_answer, step_second, row_kind, row_offset, row_length, row_owner, row_rule, next_of};
ghost use Rattle.walker.specs.Walking.{step_after};

use trusted_block_numbers::steps::{give_row, give_step};
use views::step;
use walker::nth_step;

// The step of the walk at a place.
#[unsafe(no_mangle)]
pub extern "C" fn tb_step(
    token: &[u8],
    place: u32,
    second: &mut u32,
    kind: &mut u32,
    offset: &mut u32,
    length: &mut u32,
    owner: &mut u32,
    rule: &mut u32,
    next: &mut u32,
) -> u32
    ensures number { result ≡ step_number (step_at token.now place) }
    ensures second { second.new ≡ step_second (step_at token.now place) }
    ensures kind { kind.new ≡ row_kind (step_at token.now place) }
    ensures offset { offset.new ≡ row_offset (step_at token.now place) }
    ensures length { length.new ≡ row_length (step_at token.now place) }
    ensures owner { owner.new ≡ row_owner (step_at token.now place) }
    ensures rule { rule.new ≡ row_rule (step_at token.now place) }
    ensures next { next.new ≡ next_of (step_at token.now place) }
{
    give_step(
        step(token, place as usize),
        second,
        kind,
        offset,
        length,
        owner,
        rule,
        next,
    )
}

// The row of this number.
#[unsafe(no_mangle)]
pub extern "C" fn tb_row(
    token: &[u8],
    row: u32,
    second: &mut u32,
    kind: &mut u32,
    offset: &mut u32,
    length: &mut u32,
    owner: &mut u32,
    rule: &mut u32,
    next: &mut u32,
) -> u32
    ensures number { result ≡ row_answer (step_after token.now 8 row) }
    ensures second { second.new ≡ step_second (step_after token.now 8 row) }
    ensures kind { kind.new ≡ row_kind (step_after token.now 8 row) }
    ensures offset { offset.new ≡ row_offset (step_after token.now 8 row) }
    ensures length { length.new ≡ row_length (step_after token.now 8 row) }
    ensures owner { owner.new ≡ row_owner (step_after token.now 8 row) }
    ensures rule { rule.new ≡ row_rule (step_after token.now 8 row) }
    ensures next { next.new ≡ next_of (step_after token.now 8 row) }
{
    give_row(
        nth_step(token, row),
        second,
        kind,
        offset,
        length,
        owner,
        rule,
        next,
    )
}
