// Program: reads one token from standard input, at most 3,501 bytes, and builds it again by the writer's calls: in a draft that is
// a byte too short, then in one with room. Writes the first line of each; of the rebuilt token then its fields, a line for
// each with its row, its number and its bytes; and how many bytes of the draft after it are as they were.
#![tactic(auto)]

ghost use Rattle.std.specs.Prelude.{◌≤◌, length};

use format::LONGEST;
use list_output::{read_full, write_first};
use reading::read;
use rebuild::rebuild;
use std::{fmt, io};
use views::{view, view_answer};

// What the bytes of a draft hold before.
const UNUSED: u8 = 0xAA;

// The bytes of the draft: more than any token has.
const DRAFT: usize = LONGEST + 100;

// Bytes that are written in hexadecimal, two digits each.
#[derive(Drop)]
struct Hexadecimal<'a>(&'a [u8]);

impl<'a> fmt::Display for Hexadecimal<'a> {
    fn fmt<W: fmt::Write>(&self, f: &mut fmt::Formatter<W>) -> fmt::Result {
        for b in self.0 {
            write!(f, "{b:02x}")?;
        }
        Ok(())
    }
}

// Writes the line of a field where the row has a field of this number; an empty one is there too.
fn write_field(rt: &impl Print, token: &[u8], row: u32, field: u32) -> io::Result<()> {
    if view_answer(token, row, field).is_err() {
        return Ok(());
    }
    let bytes = Hexadecimal(view(token, row, field));
    println!(rt; "{row} {field} {bytes}")
}

// Writes the lines of the fields of a row. No kind has more than eleven.
fn write_row_fields(rt: &impl Print, token: &[u8], row: u32) -> io::Result<()> {
    for field in 0..11 {
        write_field(rt, token, row, field)?;
    }
    Ok(())
}

// Writes the first line of a rebuilt token and the lines of its fields.
fn write_rebuilt(rt: &impl Print, token: &[u8], length: u32) -> io::Result<()> {
    if token.is_empty() {
        return Ok(());
    }
    let a = read(token);
    write_first(&mut io::writer(rt), token[0], length, a)?;
    let Ok(rows) = a else {
        return Ok(());
    };
    for row in 0..rows {
        write_row_fields(rt, token, row)?;
    }
    Ok(())
}

// Writes how many of these bytes are as they were.
fn write_unused(rt: &impl Print, rest: &[u8]) -> io::Result<()> {
    let n = rest.iter().filter(|b| **b == UNUSED).count();
    println!(rt; "{n} bytes after it are as they were")
}

// The token in the first bytes of the draft, one too few.
fn rebuild_short(rt: &impl Print, token: &[u8], draft: &mut [u8]) -> io::Result<()>
    requires { length token.now ≤ length draft.old }
{
    let room = token.len().saturating_sub(1);
    let a = rebuild(token, &mut draft[..room]);
    write_first(&mut io::writer(rt), 0, 0, a)
}

// The token in the whole draft.
fn rebuild_whole(rt: &impl Print, token: &[u8], draft: &mut [u8]) -> io::Result<()> {
    let a = rebuild(token, draft);
    let Ok(n) = a else {
        return write_first(&mut io::writer(rt), 0, 0, a);
    };
    let end = n as usize;
    write_rebuilt(rt, &draft[..end], n)?;
    write_unused(rt, &draft[end..])
}

fn main(rt: HostRuntime) -> io::Result<()> {
    let mut token = [0u8; LONGEST + 1];
    let n = read_full(&mut rt.stdin(), &mut token);
    let mut draft = [UNUSED; DRAFT];
    rebuild_short(&rt, &token[..n], &mut draft)?;
    rebuild_whole(&rt, &token[..n], &mut draft)
}
