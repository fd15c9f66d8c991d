// Internal: words and numbers, put one after the other into a line. No plainer by `write!`, whose answer could be an error
// that no line comes to.
#![tactic(auto)]

ghost use Rattle.std.specs.Prelude.{◌≡◌, ◌++◌, ◌∷◌, [], ◌+◌, ◌<◌, ◌≤◌, max, length};
ghost use Rattle.format.specs.Lines.{digit_text, id_text, tag_text, kind_text};
ghost use Rattle.list_words.specs.Numerals.{digit_count, numeral};

use write_bytes::Buffer;

// Enough bytes for any line.
pub const LINE: usize = 96;

pub type Line = Buffer<LINE>;

// A digit's character, 0 to 9 and A to F.
fn digit_text(d: u32) -> u8
    requires { d < 16 }
    ensures { result ≡ digit_text d }
{
    if d < 10 {
        b'0' + d as u8
    } else {
        b'A' - 10 + d as u8
    }
}

// How many digits n has in a base, which is 10 or more.
fn digit_count(n: u32, base: u32) -> usize
    requires { 10 ≤ base }
    ensures { (result ≡ digit_count base n) × (result ≤ 10) }
{
    let mut rest = n;
    let mut k = 1;
    while base <= rest {
        rest = rest / base;
        k += 1;
    }
    k
}

// How many digits n is written with: as many as it has, and at least `width`.
fn digit_places(n: u32, base: u32, width: usize) -> usize
    requires { (10 ≤ base) × (width ≤ 10) }
    ensures { (result ≡ max width (digit_count base n)) × (result ≤ 10) }
{
    let k = digit_count(n, base);
    if k < width {
        return width;
    }
    k
}

// A number in a base with at least `width` digits, and the byte `end` after it. The digits are set from the last on, in a loop:
// where the base is a constant in the call, the compiler divides by a constant.
pub fn put_number(line: &mut Line, n: u32, base: u32, width: usize, end: u8)
    requires { (10 ≤ base) × (base ≤ 16) × (width ≤ 10) × (length line.old + 11 ≤ 96) }
    ensures bytes { line.new ≡ line.old ++ (numeral base width n ++ (end ∷ [])) }
    ensures len { length line.new ≤ length line.old + 11 }
{
    let first = line.as_slice().len();
    let count = digit_places(n, base, width);
    line.lengthen(count + 1);
    line.set(first + count, end);
    let mut rest = n;
    let mut k = count;
    while 0 < k {
        k -= 1;
        line.set(first + k, digit_text(rest % base));
        rest = rest / base;
    }
}

// The word for a token's id, and a space after it.
pub fn put_id(line: &mut Line, id: u8)
    requires { length line.old + 9 ≤ 96 }
    ensures bytes { line.new ≡ line.old ++ (id_text id ++ (32 ∷ [])) }
    ensures len { length line.new ≤ length line.old + 9 }
{
    line.put(match id {
        0x1E => b"external ",
        0x1F => b"internal ",
        _ => b"unknown ",
    });
}

// A tag in four digits, - for a section, and a space after it.
fn put_tag(line: &mut Line, tag: u32)
    requires { length line.old + 11 ≤ 96 }
    ensures bytes { line.new ≡ line.old ++ (tag_text tag ++ (32 ∷ [])) }
    ensures len { length line.new ≤ length line.old + 11 }
{
    if tag == 0 {
        line.put(b"- ");
    } else {
        put_number(line, tag, 16, 4, b' ');
    }
}

// The number of a kind, as its section id in two digits and its tag, and a space after it.
pub fn put_kind(line: &mut Line, kind: u32)
    requires { length line.old + 22 ≤ 96 }
    ensures bytes { line.new ≡ line.old ++ (kind_text kind ++ (32 ∷ [])) }
    ensures len { length line.new ≤ length line.old + 22 }
{
    put_number(line, kind / 65536, 16, 2, b' ');
    put_tag(line, kind % 65536);
}
