// Public: the reading of a token, its answer, and its rows into a lent table. The calls ask nothing.
#![tactic(auto)]

pub mod draft; // draft.rt: the reading of a draft

ghost use Rattle.std.specs.Prelude.{◌≡◌};
ghost use Rattle.format.specs.Reading.{answer};
ghost use Rattle.format.specs.Table.{table_answer, table_after};

use format::refusals::NO_ROOM;
use format::{COLUMNS, Refusal};
use read_rows::fill;
use read_token::header::header;
use read_token::whole::sections_of;

// The answer for any bytes: the rows of a legal token, or the first fault and its place.
pub fn read(token: &[u8]) -> Result<u32, Refusal>
    ensures { result ≡ answer token.now }
{
    header(token, true)?;
    sections_of(token, token[0] == 0x1E, true)
}

// The same answer, and 23 with the rows needed where the table is too short for them. The rows of an accepted token are
// in the table from its start on, five numbers each; what is after them, and on refusal all of it, is as it was.
pub fn read_table(token: &[u8], table: &mut [u32]) -> Result<u32, Refusal>
    ensures answer { result ≡ table_answer token.now table.old }
    ensures table { table.new ≡ table_after token.now table.old }
{
    let n = read(token)?;
    if table.len() < COLUMNS * n as usize {
        return Err(Refusal {
            number: NO_ROOM,
            place: n,
        });
    }
    fill(token, table);
    Ok(n)
}
