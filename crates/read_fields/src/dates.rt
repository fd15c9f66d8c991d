// Internal: dates of two bytes of year, a month and a day.
ghost use Rattle.std.specs.Prelude.{◌≡◌, ◌+◌, ◌≤◌, length};
ghost use Rattle.format.specs.Bytes.{bytes_at};
ghost use Rattle.format.specs.Forms.{leap_year, days_in, date_exists, in_order};

use crate::{four, two};

// Every fourth year but the hundredths, and the four-hundredths.
fn leap_year(y: usize) -> bool
    ensures { result ≡ leap_year y }
{
    y % 4 == 0 && (y % 100 != 0 || y % 400 == 0)
}

// The days of a month of the Gregorian calendar.
fn days_in(y: usize, m: u8) -> u8
    ensures { result ≡ days_in y m }
{
    match m {
        2 if leap_year(y) => 29,
        2 => 28,
        4 | 6 | 9 | 11 => 30,
        _ => 31,
    }
}

// The date at i exists: a year to 9999, a month, a day of that month.
pub fn date_exists(s: &[u8], i: usize) -> bool
    requires { i + 4 ≤ length s.now }
    ensures { result ≡ date_exists (bytes_at s.now i 4) }
{
    let y = two(s, i);
    let m = s[i + 2];
    let d = s[i + 3];
    y <= 9999 && (1..=12).contains(&m) && (1..=days_in(y, m)).contains(&d)
}

// The date at i is not after the date at j.
#[tactic(auto, unfolding(format::specs::Forms::in_order))]
pub fn in_order(s: &[u8], i: usize, j: usize) -> bool
    requires { (i + 4 ≤ length s.now) × (j + 4 ≤ length s.now) }
    ensures { result ≡ in_order (bytes_at s.now i 4) (bytes_at s.now j 4) }
{
    four(s, i) <= four(s, j)
}
