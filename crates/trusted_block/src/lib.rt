// Public: the calls for host programs in C. Names and order of parameters stand in include/trusted_block.h.
#![tactic(auto)]

mod drafts; // drafts.rt: the start and the finish of a draft
mod sections; // sections.rt: the additions of sections
mod subsections; // subsections.rt: the additions of subsections
mod walk; // walk.rt: the walk over the rows, and a row by its number

ghost use Rattle.std.specs.Prelude.{◌≡◌};
ghost use Rattle.format.specs.Reading.{answer};
ghost use Rattle.format.specs.Table.{table_answer, table_after};
ghost use Rattle.format.specs.Views.{field_at, view_answer};
ghost use Rattle.format.specs.GivenNumbers.{number_of, second_of, offset_of, length_of};

use reading::{read, read_table};
use trusted_block_numbers::{give, give_where};
use views::field_at;

// The reading of a token.
#[unsafe(no_mangle)]
pub extern "C" fn tb_read(token: &[u8], second: &mut u32) -> u32
    ensures number { result ≡ number_of (answer token.now) }
    ensures second { second.new ≡ second_of (answer token.now) }
{
    give(read(token), second)
}

// The reading of a token into a table.
#[unsafe(no_mangle)]
pub extern "C" fn tb_read_table(token: &[u8], table: &mut [u32], second: &mut u32) -> u32
    ensures number { result ≡ number_of (table_answer token.now table.old) }
    ensures table { table.new ≡ table_after token.now table.old }
    ensures second { second.new ≡ second_of (table_answer token.now table.old) }
{
    give(read_table(token, table), second)
}

// Where the field of a row lies in the token.
#[tactic(auto, unfolding(format::specs::Views::view_answer))]
#[unsafe(no_mangle)]
pub extern "C" fn tb_view(
    token: &[u8],
    row: u32,
    field: u32,
    second: &mut u32,
    offset: &mut u32,
    length: &mut u32,
) -> u32
    ensures number { result ≡ number_of (view_answer token.now row field) }
    ensures second { second.new ≡ second_of (view_answer token.now row field) }
    ensures offset { offset.new ≡ offset_of (field_at token.now row field) }
    ensures length { length.new ≡ length_of (field_at token.now row field) }
{
    give_where(field_at(token, row, field), second, offset, length)
}
