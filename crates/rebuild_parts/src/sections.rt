// The addition of a row that is a section, its fields taken from their views.
// All contracts here are one but for the kind.
ghost use Rattle.format.specs.Parts as Parts;
ghost use Rattle.rebuild_parts.specs.Rows.{RowOfKind, AddsViews};

use crate::RowFields;
use format::Refusal;

// Section 11.
pub fn public_key(fields: RowFields, draft: &mut [u8]) -> Result<u32, Refusal>
    requires { RowOfKind fields.token.now fields.row Parts.public_key }
    ensures { AddsViews fields.entry.token.now fields.entry.row Parts.public_key draft.old result draft.new }
{
    let bits = fields.two(5);
    let exponent = fields.bytes(7);
    let modulus = fields.bytes(8);
    let flags = fields.four(9);
    add_key_and_data::public_key(draft, bits, exponent, modulus, flags)
}

// Section 12.
pub fn rule(fields: RowFields, draft: &mut [u8]) -> Result<u32, Refusal>
    requires { RowOfKind fields.token.now fields.row Parts.rule }
    ensures { AddsViews fields.entry.token.now fields.entry.row Parts.rule draft.old result draft.new }
{
    let id = fields.bytes(3);
    let flags = fields.four(4);
    let generated = fields.one(5);
    let check = fields.one(6);
    let symmetric = fields.one(7);
    let asymmetric = fields.one(8);
    add_fixed_sections::rule(draft, id, flags, generated, check, symmetric, asymmetric)
}

// Section 13.
pub fn name(fields: RowFields, draft: &mut [u8]) -> Result<u32, Refusal>
    requires { RowOfKind fields.token.now fields.row Parts.name }
    ensures { AddsViews fields.entry.token.now fields.entry.row Parts.name draft.old result draft.new }
{
    let name = fields.bytes(3);
    add_fixed_sections::name(draft, name)
}

// Section 14.
pub fn information(fields: RowFields, draft: &mut [u8]) -> Result<u32, Refusal>
    requires { RowOfKind fields.token.now fields.row Parts.information }
    ensures { AddsViews fields.entry.token.now fields.entry.row Parts.information draft.old result draft.new }
{
    let flags = fields.four(4);
    add_fixed_sections::information(draft, flags)
}

// Section 15.
pub fn application_data(fields: RowFields, draft: &mut [u8]) -> Result<u32, Refusal>
    requires { RowOfKind fields.token.now fields.row Parts.application_data }
    ensures { AddsViews fields.entry.token.now fields.entry.row Parts.application_data draft.old result draft.new }
{
    let data = fields.bytes(4);
    add_key_and_data::application_data(draft, data)
}
