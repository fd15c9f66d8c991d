// Program: reads one token from standard input, at most 3,501 bytes, and writes its listing to standard output.
#![tactic(auto)]

ghost use Rattle.std.specs.Prelude.{◌≡◌, ◌+◌, ◌*◌, ◌≤◌, length, OnOk};
ghost use Rattle.std.specs.Io.KnownBytes.{Appends};
ghost use Rattle.format.specs.Rules.{longest};
ghost use Rattle.format.specs.Reading.{id_of};
ghost use Rattle.format.specs.Table.{columns};
ghost use Rattle.format.specs.Lines.{row_line};
ghost use Rattle.list_token.specs.Listing.{row_in, table_lines, listing};

use format::{COLUMNS, LONGEST, ROWS, Row, TABLE};
use list_output::{read_full, write_first, write_row};
use reading::read_table;
use std::io;
use std::io::Write;

// Writes the line of row n of a table.
fn write_nth<W: Write>(out: &mut W, table: &[u32; TABLE], n: usize) -> io::Result<()>
    ensures { columns * (n + 1) ≤ length table.now →
        OnOk result (Appends (W.contents out.old) (W.contents out.new) (row_line n (row_in table.now n))) }
{
    if ROWS <= n {
        return Ok(());
    }
    let i = COLUMNS * n;
    let row = Row {
        kind: table[i],
        offset: table[i + 1],
        length: table[i + 2],
        owner: table[i + 3],
        rule: table[i + 4],
    };
    write_row(out, n as u32, row)
}

// Writes the lines of the first n rows of a table.
fn write_rows<W: Write>(out: &mut W, table: &[u32; TABLE], n: usize) -> io::Result<()>
    ensures { columns * n ≤ length table.now →
        OnOk result (Appends (W.contents out.old) (W.contents out.new) (table_lines table.now 0 n)) }
{
    for i in 0..n {
        write_nth(out, table, i)?;
    }
    Ok(())
}

// The id of a token, 0 where there is none.
fn id_of(token: &[u8]) -> u8
    ensures { result ≡ id_of token.now }
{
    token.first().copied().unwrap_or(0)
}

// Writes the listing of a token.
fn list<W: Write>(out: &mut W, token: &[u8]) -> io::Result<()>
    requires { length token.now ≤ longest + 1 }
    ensures { OnOk result (Appends (W.contents out.old) (W.contents out.new) (listing token.now)) }
{
    let mut table = [0u32; TABLE];
    let answer = read_table(token, &mut table);
    let id = id_of(token);
    let length = token.len() as u32;
    write_first(out, id, length, answer)?;
    let Ok(rows) = answer else {
        return Ok(());
    };
    write_rows(out, &table, rows as usize)
}

fn main(rt: HostRuntime) -> io::Result<()> {
    let mut token = [0u8; LONGEST + 1];
    let n = read_full(&mut rt.stdin(), &mut token);
    list(&mut io::writer(&rt), &token[..n])
}
