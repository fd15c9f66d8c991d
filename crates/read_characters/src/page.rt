// Internal: the page of characters, and the marks on it.
ghost use Rattle.std.specs.Prelude.{◌≡◌, ◌≤◌, length};
ghost use Rattle.format.specs.Forms.{leading};
ghost use Rattle.read_characters.specs.Classes.{class_of, of_class};

use std::marker::Model;

// The page of characters. Each of the 256 byte values has one mark:
//
//     a    a letter: A to Z, a to z
//     d    a digit: 0 to 9
//     h    a rule sign: hyphen, underscore
//     @    a label sign: # $ @
//     *    a star
//     s    a space
//     .    none of these
//
// Sixteen rows of sixteen: the first row has the values 0x00 to 0x0F, the next 0x10 to 0x1F, the last 0xF0 to 0xFF. `./page`
// prints them with the values of each row beside it.
const CHARACTERS: [u8; 256] = *b"\
    ................\
    ................\
    s..@@.....*..h..\
    dddddddddd......\
    @aaaaaaaaaaaaaaa\
    aaaaaaaaaaa....h\
    .aaaaaaaaaaaaaaa\
    aaaaaaaaaaa.....\
    ................\
    ................\
    ................\
    ................\
    ................\
    ................\
    ................\
    ................";

// The marks that the code compares.
pub(crate) const LETTER: u8 = b'a';

pub(crate) const DIGIT: u8 = b'd';

pub(crate) const RULE_SIGN: u8 = b'h';

pub(crate) const LABEL_SIGN: u8 = b'@';

pub(crate) const STAR: u8 = b'*';

pub(crate) const SPACE: u8 = b's';

// The first hexadecimal digit of a, d and h, the marks of what stands in a Rule ID; that of s is 7, of the others less.
pub(crate) const IN_RULE_ID: u8 = 6;

// The page, made once where a run of rules begins, and lent from there: a constant is written out wherever it is used.
#[derive(Drop)]
pub struct Page {
    marks: [u8; 256],
}

impl Model for Page {
    ghost use Rattle.std.specs.Prelude.{List, ℕ};
    ghost use Rattle.read_characters.specs.Page.{IsPage};

    ghost Value = { List ℕ };

    ghost view = { λ p. p.marks };

    ghost invariant = { λ p. IsPage p.marks };
}

impl Page {
    pub fn new() -> Page {
        Page { marks: CHARACTERS }
    }

    // The class of a character: its mark on the page. Every test of a character is made by it, but for the spaces after a label
    // template (`only_spaces`).
    #[tactic(auto, using(crate::proofs::Entries::entry_class))]
    pub fn character(&self, b: u8) -> u8
        ensures { result ≡ class_of b }
    {
        self.marks[usize::from(b)]
    }

    // The character is of one of the classes lo to hi.
    #[tactic(auto, unfolding(crate::specs::Classes::of_class))]
    fn is_of_class(&self, b: u8, lo: u8, hi: u8) -> bool
        ensures { result ≡ of_class lo hi b }
    {
        (lo..=hi).contains(&self.character(b))
    }

    // How many characters of the classes lo to hi stand at the front.
    pub(crate) fn leading(&self, bytes: &[u8], lo: u8, hi: u8) -> usize
        ensures { (result ≡ leading (of_class lo hi) bytes.now) × (result ≤ length bytes.now) }
    {
        bytes
            .iter()
            .take_while(|b| self.is_of_class(**b, lo, hi))
            .count()
    }
}
