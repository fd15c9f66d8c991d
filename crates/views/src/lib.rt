// Public: the fields of a token by row and number, and the walk over its rows. Any bytes, row, field and place may be asked.
#![tactic(auto)]

ghost use Rattle.std.specs.Prelude.{◌≡◌};
ghost use Rattle.format.specs.Views.{field_at, step_at};

use format::{Refusal, RowStep, Span};
use reading::read;
use view_rows::{field_in, step_in};

// Where the field of a row lies in the token, or the refusal: the token's own, or 22.
pub fn field_at(token: &[u8], row: u32, field: u32) -> Result<Span, Refusal>
    ensures { result ≡ field_at token.now row field }
{
    let _rows = read(token)?;
    field_in(token, row as usize, field as usize)
}

// The part of the token that the field of a row occupies, none on refusal.
pub fn view(token: &[u8], row: u32, field: u32) -> &[u8]
    ensures { result.now ≡ Rattle.format.specs.Views.view token.now row field }
{
    let Ok(span) = field_at(token, row, field) else {
        return &token[..0];
    };
    let start = span.offset as usize;
    let end = start + span.length as usize;
    &token[start..end]
}

// Whether the view is of a field: 0, or the refusal.
pub fn view_answer(token: &[u8], row: u32, field: u32) -> Result<u32, Refusal>
    ensures { result ≡ Rattle.format.specs.Views.view_answer token.now row field }
{
    let _span = field_at(token, row, field)?;
    Ok(0)
}

// The row that begins at a place, with the place of the next; none at the token's length; 22 at any other place.
pub fn step(token: &[u8], place: usize) -> Result<Option<RowStep>, Refusal>
    ensures { result ≡ step_at token.now place }
{
    let _count = read(token)?;
    step_in(token, place)
}
