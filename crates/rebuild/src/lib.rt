// Public: a token built again by the writer's calls, part by part, from its rows and the views of their fields. The call
// asks nothing.
#![tactic(auto)]

ghost use Rattle.std.specs.Prelude.{◌≡◌, List, ◌++◌, ℕ, ◌≤◌, length, drop};
ghost use Rattle.format.specs.Legal.{Legal};
ghost use Rattle.format.specs.Reading.{found};
ghost use Rattle.format.specs.Writer.{write_answer, draft_after};
ghost use Rattle.format.specs.Claims.{additions};
ghost use Rattle.format.specs.Answers.{Accepted};
ghost use Rattle.rebuild.specs.Rebuilding.{rebuilt};
ghost use Rattle.format.specs.KindNames.{named};
ghost use Rattle.rebuild_parts.specs.Rows.{RowOfKind, AddsViews};
ghost use Rattle.rebuild.specs.Rows.{IsThere, HasRows, AddsRow};

use format::Refusal;
use format::kinds::Kind;
use format::refusals::NO_ROOM;
use reading::read;
use rebuild_parts::{RowFields, sections, subsections};
use walker::nth_step;
use writer::{finish, start};

// The views of a row added to the draft, by the call for its kind.
fn add_kind(fields: RowFields, kind: Kind, draft: &mut [u8]) -> Result<u32, Refusal>
    requires { RowOfKind fields.token.now fields.row (named kind) }
    ensures { AddsViews fields.entry.token.now fields.entry.row (named kind) draft.old result draft.new }
{
    match kind {
        Kind::PublicKey => sections::public_key(fields, draft),
        Kind::Rule => sections::rule(fields, draft),
        Kind::TransportVariant => subsections::transport_variant(fields, draft),
        Kind::TransportRule => subsections::transport_rule(fields, draft),
        Kind::ExportParameters => subsections::export_parameters(fields, draft),
        Kind::SourceRule => subsections::source_rule(fields, draft),
        Kind::TokenParameters => subsections::token_parameters(fields, draft),
        Kind::Name => sections::name(fields, draft),
        Kind::Information => sections::information(fields, draft),
        Kind::Protection => subsections::protection(fields, draft),
        Kind::Dates => subsections::dates(fields, draft),
        Kind::ApplicationData => sections::application_data(fields, draft),
    }
}

// The part of a row added to the draft: the walk's step at the row tells its kind.
fn add_row(token: &[u8], row: u32, draft: &mut [u8]) -> Result<u32, Refusal>
    requires { IsThere token.now row }
    ensures { AddsRow token.now row draft.old result draft.new }
{
    let Ok(Some(step)) = nth_step(token, row) else {
        unreachable!()
    };
    let Some(kind) = Kind::from_number(step.row.kind) else {
        unreachable!()
    };
    add_kind(RowFields { token, row }, kind, draft)
}

// The parts of all rows added one after another; a refusal goes straight out.
fn add_rows(token: &[u8], rows: u32, draft: &mut [u8]) -> Result<u32, Refusal>
    requires { HasRows token.now rows }
    ensures { (l : Legal token.now) (e : List ℕ) → additions l.parts draft.old ≡ found e → (result ≡ Accepted rows) × (draft.new ≡ e) }
{
    for row in 0..rows {
        add_row(token, row, draft)?;
    }
    Ok(rows)
}

// A token with this many rows built in a draft that has room: started, its parts added, finished.
fn build(token: &[u8], rows: u32, draft: &mut [u8]) -> Result<u32, Refusal>
    requires { HasRows token.now rows × (length token.now ≤ length draft.old) }
    ensures { (result ≡ Accepted (length token.now)) × (draft.new ≡ token.now ++ drop (length token.now) draft.old) }
{
    start(draft, token[0])?;
    add_rows(token, rows, draft)?;
    finish(draft)
}

// The token's own refusal; 23 where the draft has no room for it; else 0 and its length, and the draft then begins with
// the token's very bytes and holds what it held after them.
pub fn rebuild(token: &[u8], draft: &mut [u8]) -> Result<u32, Refusal>
    ensures answer { result ≡ write_answer (rebuilt token.now draft.old) }
    ensures draft { draft.new ≡ draft_after (rebuilt token.now draft.old) draft.old }
{
    let rows = read(token)?;
    if draft.len() < token.len() {
        return Err(Refusal::at(NO_ROOM, 0));
    }
    build(token, rows, draft)
}
