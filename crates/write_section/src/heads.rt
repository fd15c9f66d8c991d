// Internal: how the bytes of a section or a subsection begin.
ghost use Rattle.std.specs.Prelude.{◌≡◌, true, ◌∷◌, []};
ghost use Rattle.format.specs.Bytes.{big_endian};
ghost use Rattle.format.specs.Layout.{write};
ghost use Rattle.format.specs.Parts.{frame};

// How a section of n bytes begins: its id, 0, and its length. A header begins so, too.
pub fn section_head(id: u8, n: u16) -> [u8; 4]
    ensures { result ≡ id ∷ 0 ∷ big_endian 2 n }
{
    let [high, low] = n.to_be_bytes();
    [id, 0, high, low]
}

// How a subsection of n bytes begins: its tag, its length, version 0.
pub fn subsection_head(tag: u16, n: u16) -> [u8; 5]
    ensures { result ≡ write n (frame true 0 tag) [] }
{
    let [tag_high, tag_low] = tag.to_be_bytes();
    let [high, low] = n.to_be_bytes();
    [tag_high, tag_low, high, low, 0]
}
