// Internal: a part of what is read.
ghost use Rattle.std.specs.Prelude.{◌≡◌, ℕ, ◌+◌, ◌-◌, ◌<◌, ◌≤◌, length, get_or, drop};
ghost use Rattle.format.specs.Rules.{longest};

use format::Refusal;

// A part: the bytes from its first one on, its place in what is read, and how many bytes are left from there of what holds it,
// the token or the section. Four are there: its id or tag, and its length.
#[derive(Clone, Copy)]
pub struct PartBytes<'a> {
    pub bytes: &'a [u8],
    pub place: usize,
    pub left: usize,
    ghost four: { 4 ≤ left },
    ghost here: { left ≤ length bytes.now },
    ghost within: { place + length bytes.now ≤ longest },
    ghost small: { (i : ℕ) → get_or bytes.now i 0 < 256 },
}

impl<'a> PartBytes<'a> {
    // The section at a place of what is read.
    pub fn section(s: &'a [u8], place: usize) -> PartBytes<'a>
        requires { (place + 4 ≤ length s.now) × (length s.now ≤ longest) }
        ensures { (result.bytes.now ≡ drop place s.now) × (result.place ≡ place) × (result.left ≡ length s.now - place) }
    {
        PartBytes {
            bytes: &s[place..],
            place,
            left: s.len() - place,
        }
    }

    // The subsection at an offset of this section, which ends at another.
    pub fn subsection(self, at: usize, end: usize) -> PartBytes<'a>
        requires { (at + 4 ≤ end) × (end ≤ length self.bytes.now) }
        ensures { (result.bytes.now ≡ drop at self.entry.bytes.now) × (result.place ≡ self.entry.place + at) × (result.left ≡ end - at) }
    {
        PartBytes {
            bytes: &self.bytes[at..],
            place: self.place + at,
            left: end - at,
        }
    }

    // The refusal with this number at an offset of the part.
    pub fn refused(self, number: u32, offset: usize) -> Refusal
        requires { offset < 65536 }
        ensures { result ≡ record { number = number; place = self.entry.place + offset } }
    {
        Refusal::at(number, self.place + offset)
    }
}
