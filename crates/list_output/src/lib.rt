// Internal: what the programs read and write: a token's bytes from a reader, the lines of the listing to a writer.
#![tactic(auto)]

ghost use Rattle.std.specs.Prelude.{OnOk, length, take, ◌≤◌};
ghost use Rattle.std.specs.Io.KnownBytes.{Appends, Consumes};
ghost use Rattle.format.specs.Lines.{first_line, row_line};

use format::{Refusal, Row};
use listing::{first, of_row};
use std::io;
use std::io::{Read, Write};

// Reads to the start of `bytes` until it is full, the input ends or a read fails. The result is how many bytes were read.
pub fn read_full<R: Read>(input: &mut R, bytes: &mut [u8]) -> usize
    ensures within { result ≤ length bytes.new }
    ensures read { Consumes (R.remaining input.old) (R.remaining input.new) (take result bytes.new) }
{
    let mut done = 0;
    // No plainer as a `for`: a step is as long as what was read.
    while done < bytes.len() {
        let Ok(n) = input.read(&mut bytes[done..]) else {
            break;
        };
        if n == 0 {
            break;
        }
        done += n;
    }
    done
}

// Writes the first line.
pub fn write_first<W: Write>(
    out: &mut W,
    id: u8,
    length: u32,
    answer: Result<u32, Refusal>,
) -> io::Result<()>
    ensures { OnOk result (Appends (W.contents out.old) (W.contents out.new) (first_line id length answer)) }
{
    out.write_all(first(id, length, answer).as_slice())
}

// Writes the line of a row.
pub fn write_row<W: Write>(out: &mut W, place: u32, row: Row) -> io::Result<()>
    ensures { OnOk result (Appends (W.contents out.old) (W.contents out.new) (row_line place row)) }
{
    out.write_all(of_row(place, row).as_slice())
}
