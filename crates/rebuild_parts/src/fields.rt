// The fields of a row by their numbers, as bytes and as the numbers that the bytes state.
ghost use Rattle.std.specs.Prelude.{◌≡◌, length};
ghost use Rattle.format.specs.Bytes.{big_endian};
ghost use Rattle.format.specs.Views as Views;

use read_fields::{four, two};
use views::view;

#[derive(Clone, Copy)]
pub struct RowFields<'a> {
    pub token: &'a [u8],
    pub row: u32,
}

impl<'a> RowFields<'a> {
    // The bytes of a field.
    pub fn bytes(self, field: u32) -> &'a [u8]
        ensures { result.now ≡ Views.view self.entry.token.now self.entry.row field }
    {
        view(self.token, self.row, field)
    }

    // A field of one byte.
    pub fn one(self, field: u32) -> u8
        requires { length (Views.view self.token.now self.row field) ≡ 1 }
        ensures { big_endian 1 result ≡ Views.view self.entry.token.now self.entry.row field }
    {
        self.bytes(field)[0]
    }

    // A field of two bytes.
    pub fn two(self, field: u32) -> u16
        requires { length (Views.view self.token.now self.row field) ≡ 2 }
        ensures { big_endian 2 result ≡ Views.view self.entry.token.now self.entry.row field }
    {
        let bytes = self.bytes(field);
        two(bytes, 0) as u16
    }

    // A field of four bytes.
    pub fn four(self, field: u32) -> u32
        requires { length (Views.view self.token.now self.row field) ≡ 4 }
        ensures { big_endian 4 result ≡ Views.view self.entry.token.now self.entry.row field }
    {
        let bytes = self.bytes(field);
        four(bytes, 0)
    }
}
