// The addition of a row that is a subsection, its fields taken from their views.
// All contracts here are one but for the kind.
ghost use Rattle.format.specs.Parts as Parts;
ghost use Rattle.rebuild_parts.specs.Rows.{RowOfKind, AddsViews};

use crate::RowFields;
use format::Refusal;

// 12/0001.
pub fn transport_variant(fields: RowFields, draft: &mut [u8]) -> Result<u32, Refusal>
    requires { RowOfKind fields.token.now fields.row Parts.transport_variant }
    ensures { AddsViews fields.entry.token.now fields.entry.row Parts.transport_variant draft.old result draft.new }
{
    let variant = fields.bytes(5);
    add_variant_and_references::transport_variant(draft, variant)
}

// 12/0002.
pub fn transport_rule(fields: RowFields, draft: &mut [u8]) -> Result<u32, Refusal>
    requires { RowOfKind fields.token.now fields.row Parts.transport_rule }
    ensures { AddsViews fields.entry.token.now fields.entry.row Parts.transport_rule draft.old result draft.new }
{
    let id = fields.bytes(4);
    add_variant_and_references::transport_rule(draft, id)
}

// 12/0003.
pub fn export_parameters(fields: RowFields, draft: &mut [u8]) -> Result<u32, Refusal>
    requires { RowOfKind fields.token.now fields.row Parts.export_parameters }
    ensures { AddsViews fields.entry.token.now fields.entry.row Parts.export_parameters draft.old result draft.new }
{
    let minimum = fields.one(5);
    let maximum = fields.one(6);
    let variant = fields.bytes(8);
    let vector = fields.bytes(10);
    add_export_parameters::export_parameters(draft, minimum, maximum, variant, vector)
}

// 12/0004.
pub fn source_rule(fields: RowFields, draft: &mut [u8]) -> Result<u32, Refusal>
    requires { RowOfKind fields.token.now fields.row Parts.source_rule }
    ensures { AddsViews fields.entry.token.now fields.entry.row Parts.source_rule draft.old result draft.new }
{
    let id = fields.bytes(4);
    add_variant_and_references::source_rule(draft, id)
}

// 12/0005.
pub fn token_parameters(fields: RowFields, draft: &mut [u8]) -> Result<u32, Refusal>
    requires { RowOfKind fields.token.now fields.row Parts.token_parameters }
    ensures { AddsViews fields.entry.token.now fields.entry.row Parts.token_parameters draft.old result draft.new }
{
    let mask = fields.bytes(6);
    let template = fields.bytes(7);
    let label = fields.bytes(9);
    add_token_parameters::token_parameters(draft, mask, template, label)
}

// 14/0001.
pub fn protection(fields: RowFields, draft: &mut [u8]) -> Result<u32, Refusal>
    requires { RowOfKind fields.token.now fields.row Parts.protection }
    ensures { AddsViews fields.entry.token.now fields.entry.row Parts.protection draft.old result draft.new }
{
    let mac_key = fields.bytes(4);
    let mac = fields.bytes(5);
    let mkvp = fields.bytes(6);
    add_protection_and_dates::protection(draft, mac_key, mac, mkvp)
}

// 14/0002.
pub fn dates(fields: RowFields, draft: &mut [u8]) -> Result<u32, Refusal>
    requires { RowOfKind fields.token.now fields.row Parts.dates }
    ensures { AddsViews fields.entry.token.now fields.entry.row Parts.dates draft.old result draft.new }
{
    let flags = fields.two(4);
    let activation = fields.bytes(5);
    let expiration = fields.bytes(6);
    add_protection_and_dates::dates(draft, flags, activation, expiration)
}
