// Public: the lines of the listing, each as a value (`first`, `of_row`) or made at the start of a lent buffer (`first_line`,
// `row_line`). These answer 0 with the line's length, or 23 where the buffer is too small for the line and is left as it is.
#![tactic(auto)]

ghost use Rattle.std.specs.Prelude.{◌≡◌, [], ◌≤◌, length};
ghost use Rattle.format.specs.Lines.{first_line, row_line};
ghost use Rattle.listing.specs.Buffers.{line_answer, line_in};

use format::refusals::NO_ROOM;
use format::{Refusal, Row};
use list_words::{put_id, put_kind, put_number};
pub use list_words::{LINE, Line};

// The first line of a listing, from the token's id, its length and the reading's answer.
pub fn first(id: u8, bytes: u32, answer: Result<u32, Refusal>) -> Line
    ensures { result ≡ first_line id bytes answer }
{
    let mut line = Line::new();
    match answer {
        Ok(rows) => {
            line.put(b"token ");
            put_id(&mut line, id);
            put_number(&mut line, bytes, 10, 1, b' ');
            line.put(b"bytes ");
            put_number(&mut line, rows, 10, 1, b' ');
            line.put(b"rows\n");
        }
        Err(refusal) => {
            line.put(b"refused ");
            put_number(&mut line, refusal.number, 10, 1, b' ');
            line.put(b"at ");
            put_number(&mut line, refusal.place, 10, 1, b'\n');
        }
    }
    line
}

// The line of a row, put into one that has nothing yet.
fn put_row(line: &mut Line, place: u32, row: Row)
    requires { line.old ≡ [] }
    ensures bytes { line.new ≡ row_line place row }
    ensures fits { length line.new ≤ 96 }
{
    put_number(line, place, 10, 1, b' ');
    put_kind(line, row.kind);
    put_number(line, row.offset, 10, 1, b' ');
    put_number(line, row.length, 10, 1, b' ');
    put_number(line, row.owner, 10, 1, b' ');
    put_number(line, row.rule, 10, 1, b'\n');
}

// The line of a row, from its place in the table and its numbers.
pub fn of_row(place: u32, row: Row) -> Line
    ensures { result ≡ row_line place row }
{
    let mut line = Line::new();
    put_row(&mut line, place, row);
    line
}

// Places a line at the start of a lent buffer.
fn place_line(out: &mut [u8], line: &Line) -> Result<u32, Refusal>
    ensures answer { result ≡ line_answer line.now out.old }
    ensures buffer { out.new ≡ line_in line.now out.old }
{
    let line = line.as_slice();
    if out.len() < line.len() {
        return Err(Refusal::at(NO_ROOM, 0));
    }
    out[..line.len()].copy_from_slice(line);
    Ok(line.len() as u32)
}

// The first line, in a lent buffer.
pub fn first_line(
    out: &mut [u8],
    id: u8,
    bytes: u32,
    answer: Result<u32, Refusal>,
) -> Result<u32, Refusal>
    ensures answer { result ≡ line_answer (first_line id bytes answer) out.old }
    ensures buffer { out.new ≡ line_in (first_line id bytes answer) out.old }
    ensures fits { length (first_line id bytes answer) ≤ 96 }
{
    place_line(out, &first(id, bytes, answer))
}

// The line of a row, in a lent buffer.
pub fn row_line(out: &mut [u8], place: u32, row: Row) -> Result<u32, Refusal>
    ensures answer { result ≡ line_answer (row_line place row) out.old }
    ensures buffer { out.new ≡ line_in (row_line place row) out.old }
    ensures fits { length (row_line place row) ≤ 96 }
{
    // Not `of_row`, whose result would be copied once more.
    let mut line = Line::new();
    put_row(&mut line, place, row);
    place_line(out, &line)
}
