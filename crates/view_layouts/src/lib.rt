// Internal: where the fields of a part lie, found by going through its kind's layout.
#![tactic(auto)]

ghost use Rattle.std.specs.Prelude.{◌≡◌, ◌+◌, ◌<◌, ◌≤◌, length};
ghost use Rattle.format.specs.Bytes.{number, bytes_at};
ghost use Rattle.view_layouts.specs.Widths.{widths_of, IsHeld, length_of, HasRoom, counts_after, Standing, InSlot};

use Width::{Bytes, Count, Counted};
use format::kinds::Kind;
use format::refusals::NOT_THERE;
use format::{Refusal, Span};
use read_fields::two;

// The length of a field: so many bytes; so many too, which state the length of a later field; what the count of this number
// states, from 0.
#[derive(Clone, Copy)]
enum Width {
    Bytes(usize),
    Count(usize),
    Counted(usize),
}

// The lengths in the table below.
const B1: Width = Bytes(1);

const B2: Width = Bytes(2);

const B4: Width = Bytes(4);

const B8: Width = Bytes(8);

const B16: Width = Bytes(16);

const B32: Width = Bytes(32);

const B64: Width = Bytes(64);

const N1: Width = Count(1);

const N2: Width = Count(2);

const X: Width = Counted(0);

const Y: Width = Counted(1);

// The fields of a kind.
fn widths(kind: Kind) -> &'static [Width]
    ensures { result.now ≡ widths_of kind }
{
    match kind {
        Kind::PublicKey => &[B1, B1, B2, B2, N2, B2, N2, X, Y, B4],
        Kind::Rule => &[B1, B1, B2, B8, B4, B1, B1, B1, B1],
        Kind::TransportVariant => &[B2, B2, B1, B2, N1, X],
        Kind::TransportRule => &[B2, B2, B1, B1, B8],
        Kind::ExportParameters => &[B2, B2, B1, B2, B1, B1, B1, N1, X, N1, Y],
        Kind::SourceRule => &[B2, B2, B1, B1, B8],
        Kind::TokenParameters => &[B2, B2, B1, B2, B1, N1, X, X, N1, Y],
        Kind::Name => &[B1, B1, B2, B64],
        Kind::Information => &[B1, B1, B2, B2, B4],
        Kind::Protection => &[B2, B2, B1, B1, B32, B8, B16],
        Kind::Dates => &[B2, B2, B1, B1, B2, B4, B4],
        Kind::ApplicationData => &[B1, B1, B2, N2, X],
    }
}

// The number that a count states.
fn count(s: &[u8], place: usize, bytes: usize) -> usize
    requires short { (0 < bytes) × (bytes < 3) }
    requires room { place + bytes ≤ length s.now }
    ensures { result ≡ number (bytes_at s.now place bytes) }
{
    if bytes == 1 {
        return usize::from(s[place]);
    }
    two(s, place)
}

// The counts of a part that were passed so far.
#[derive(Clone, Copy)]
struct Counts {
    numbers: [usize; 2],
    passed: usize,
}

impl Counts {
    // The length of a field that stands after them.
    fn length(&self, width: Width) -> usize
        requires { IsHeld width }
        ensures { result ≡ length_of self.now width }
    {
        match width {
            Bytes(n) | Count(n) => n,
            Counted(which) => self.numbers[which],
        }
    }

    // Goes past a field, which may be a count.
    fn pass(&mut self, s: &[u8], place: usize, width: Width)
        requires { HasRoom s.now place self.old width }
        ensures { self.new ≡ counts_after s.now place self.old width }
    {
        if let Count(bytes) = width {
            self.numbers[self.passed] = count(s, place, bytes);
            self.passed += 1;
        }
    }
}

// Where a field lies of the part of this kind that stands at this place.
pub fn slot_at(s: &[u8], at: usize, kind: u32, field: usize) -> Result<Span, Refusal>
    requires { Standing s.now at kind }
    ensures { InSlot s.now at kind field result }
{
    let Some(kind) = Kind::from_number(kind) else {
        unreachable!()
    };
    let mut place = at;
    let mut counts = Counts {
        numbers: [0; 2],
        passed: 0,
    };
    for (number, width) in widths(kind).iter().enumerate() {
        let length = counts.length(*width);
        let there = number == field;
        if there {
            return Ok(Span {
                offset: place as u32,
                length: length as u32,
            });
        }
        counts.pass(s, place, *width);
        place += length;
    }
    Err(Refusal::at(NOT_THERE, 0))
}
