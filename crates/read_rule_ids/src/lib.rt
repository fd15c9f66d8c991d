// Internal: which Rule IDs came before. Each is a number that is not 0, and a set of them is kept in 704 places: a number
// stands at the place that its hash tells, or after it with no empty place between. 3,500 bytes hold at most 174 rules, so
// the 192 places after the last hash are enough and the search ends at an empty one.
#![tactic(auto)]

ghost use Rattle.std.specs.Prelude.{◌≡◌, ◌<◌, replicate};
ghost use Rattle.read_rule_ids.specs.Keys.{id_places, hash_of, Room, Put};

use std::marker::Model;

// The places of a set.
pub const ID_PLACES: usize = 704;

// The first place that may hold the number: one of 512, by multiplying its two halves.
#[tactic(auto, unfolding(crate::specs::Keys::hash_of))]
fn hash(k: u64) -> usize
    ensures { (result ≡ hash_of k) × (result < 512) }
{
    let high = k >> 32;
    let low = k & 0xFFFF_FFFF;
    ((high * 1640531527 + low * 2135587861) >> 23) as usize % 512
}

// A set of Rule IDs, by its places; an empty place is 0.
#[derive(Drop)]
pub struct RuleIds {
    places: [u64; ID_PLACES],
}

impl Model for RuleIds {
    ghost use Rattle.std.specs.Prelude.{List, ℕ};

    ghost Value = { List ℕ };

    ghost view = { λ s. s.places };
}

impl RuleIds {
    // The empty set.
    pub fn new() -> RuleIds
        ensures { result ≡ replicate id_places 0 }
    {
        RuleIds {
            places: [0; ID_PLACES],
        }
    }

    // Puts the number into the set, and says whether it was there.
    pub fn put(&mut self, k: u64) -> bool
        requires { (0 < k) × Room self.old }
        ensures { Put self.old k result self.new }
    {
        // slower: a `for` over the places tests at each step whether they end.
        let mut i = hash(k);
        while self.places[i] != 0 {
            if self.places[i] == k {
                return true;
            }
            i += 1;
        }
        self.places[i] = k;
        false
    }
}
