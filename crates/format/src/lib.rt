// Public: the types that answers are made of, and the limits; in the definitions each u32 is a natural number, ℕ. The definitions of
// the format stand in specs/, the theorems about them in proofs/.
#![tactic(auto)]

pub mod kinds; // kinds.rt: the kinds of sections and subsections
pub mod refusals; // refusals.rt: the numbers of the refusals

ghost use Rattle.std.specs.Prelude.{◌≡◌, ◌^◌, ◌<◌};

// A token is at most this long.
pub const LONGEST: usize = 3500;

// The bytes of a rule's own fields, before its subsections.
pub const RULE_FIELDS: usize = 20;

// The bytes of section 14's own fields, before its subsections.
pub const INFORMATION_FIELDS: usize = 10;

// A row of the table has this many numbers.
pub const COLUMNS: usize = 5;

// A token has at most this many rows.
pub const ROWS: usize = 300;

// A table of this many numbers has room for any token.
pub const TABLE: usize = COLUMNS * ROWS;

// Why a call is refused: the refusal's number and its place. In the definitions an answer that is refused is `Refused` with both.
#[derive(Clone, Copy, Debug, PartialEq, Eq)]
pub struct Refusal {
    pub number: u32,
    pub place: u32,
}

impl Refusal {
    // The refusal of this number at a place.
    pub fn at(number: u32, place: usize) -> Refusal
        requires { place < 2 ^ 32 }
        ensures { result ≡ record { number = number; place = place } }
    {
        Refusal {
            number,
            place: place as u32,
        }
    }
}

// A row of the table: a section or a subsection of the token.
#[derive(Clone, Copy, Debug, PartialEq, Eq)]
pub struct Row {
    pub kind: u32,
    pub offset: u32,
    pub length: u32,
    pub owner: u32,
    pub rule: u32,
}

// Where a field lies in the token, and how long it is.
#[derive(Clone, Copy, Debug, PartialEq, Eq)]
pub struct Span {
    pub offset: u32,
    pub length: u32,
}

// A step of the walk that comes to a row: the row, and the place of the next.
#[derive(Clone, Copy, Debug, PartialEq, Eq)]
pub struct RowStep {
    pub row: Row,
    pub next: u32,
}
