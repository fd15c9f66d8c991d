// Public: the reader that keeps hold of a token's bytes and its place in them. Any bytes may be walked.
#![tactic(auto)]

ghost use Rattle.std.specs.Prelude.{◌≡◌};
ghost use Rattle.format.specs.Views.{step_at, place_after};
ghost use Rattle.walker.specs.Walking.{step_after};

use format::{Refusal, RowStep};

#[derive(Drop)]
pub struct Walker<'a> {
    token: &'a [u8],
    place: usize,
}

// The place that a step leads to: the next row's, and at the end or a refusal its own.
pub fn place_after(s: Result<Option<RowStep>, Refusal>, place: usize) -> usize
    ensures { result ≡ place_after place s }
{
    let Ok(Some(step)) = s else {
        return place;
    };
    step.next as usize
}

impl<'a> Walker<'a> {
    // The reader at the first row's place.
    pub fn start(token: &'a [u8]) -> Walker<'a>
        ensures { (result.token ≡ token.entry) × (result.place ≡ 8) }
    {
        Walker { token, place: 8 }
    }

    // The step at the reader's place. On a row the reader moves to the next row's place, else it stays.
    pub fn next(&mut self) -> Result<Option<RowStep>, Refusal>
        ensures { (result ≡ step_at self.old.token.now self.old.place) × ((self.new.token ≡ self.old.token) × (self.new.place ≡ place_after self.old.place result)) }
    {
        let s = views::step(self.token, self.place);
        self.place = place_after(s, self.place);
        s
    }
}

// The step after n steps from the first row's place, by the reader: row n, or what stopped the walk before it.
pub fn nth_step(token: &[u8], n: u32) -> Result<Option<RowStep>, Refusal>
    ensures { result ≡ step_after token.now 8 n }
{
    let mut w = Walker::start(token);
    let mut s = w.next();
    for _ in 0..n {
        let Ok(Some(_)) = s else {
            break;
        };
        s = w.next();
    }
    s
}
