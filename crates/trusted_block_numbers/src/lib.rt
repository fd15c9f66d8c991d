// Internal: an answer, the place of a field and a step of the walk as the numbers that a host program in C gets. The calls ask
// nothing. What is not the answer's number goes to references, since the C interface returns one number.
#![tactic(auto)]

pub mod steps; // steps.rt: a step of the walk

ghost use Rattle.std.specs.Prelude.{◌≡◌};
ghost use Rattle.format.specs.Views.{whether_there};
ghost use Rattle.format.specs.GivenNumbers.{number_of, second_of, offset_of, length_of};

use format::{Refusal, Span};

// The two numbers of an answer.
#[tactic(auto, unfolding(format::specs::GivenNumbers::number_of, format::specs::GivenNumbers::second_of))]
pub fn give(a: Result<u32, Refusal>, second: &mut u32) -> u32
    ensures number { result ≡ number_of a }
    ensures second { second.new ≡ second_of a }
{
    match a {
        Ok(n) => {
            *second = n;
            0
        }
        Err(refusal) => {
            *second = refusal.place;
            refusal.number
        }
    }
}

// The numbers of a field's place.
#[tactic(auto, unfolding(format::specs::GivenNumbers::offset_of, format::specs::GivenNumbers::length_of))]
pub fn give_where(
    w: Result<Span, Refusal>,
    second: &mut u32,
    offset: &mut u32,
    length: &mut u32,
) -> u32
    ensures number { result ≡ number_of (whether_there w) }
    ensures second { second.new ≡ second_of (whether_there w) }
    ensures offset { offset.new ≡ offset_of w }
    ensures length { length.new ≡ length_of w }
{
    let span = w.unwrap_or(Span {
        offset: 0,
        length: 0,
    });
    *offset = span.offset;
    *length = span.length;
    give(w.map(|_| 0), second)
}
