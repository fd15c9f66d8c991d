// Public: the additions of 14/0001 and 14/0002 to the last section of a lent draft: the protection, the dates. Each tests the
// lengths of what it is lent, makes the subsection's bytes in an array of its own and adds them. The calls ask nothing.
// All contracts here are one but for the kind and its fields: the answer is `write_answer (addition KIND FIELDS draft)`, and
// the draft then holds `draft_after` of the same.
#![tactic(auto)]

ghost use Rattle.std.specs.Prelude.{◌≡◌, [], ◌∷◌};
ghost use Rattle.format.specs.Parts as Parts;
ghost use Rattle.format.specs.Writer.{write_answer, draft_after, addition, date_fields};

use format::Refusal;
use write_bytes::Buffer;
use write_section::heads::subsection_head;
use write_section::not_fitting;
use write_subsection::add_subsection;

// Adds 14/0001, the protection: the MAC key, the MAC and the MKVP.
pub fn protection(draft: &mut [u8], mac_key: &[u8], mac: &[u8], mkvp: &[u8]) -> Result<u32, Refusal>
    ensures answer { result ≡ write_answer (addition Parts.protection (mac_key.now ∷ mac.now ∷ mkvp.now ∷ []) draft.old) }
    ensures draft { draft.new ≡ draft_after (addition Parts.protection (mac_key.now ∷ mac.now ∷ mkvp.now ∷ []) draft.old) draft.old }
{
    if mac_key.len() != 32 || mac.len() != 8 || mkvp.len() != 16 {
        return not_fitting(draft);
    }
    let mut part = Buffer::<62>::new();
    part.put(&subsection_head(0x0001, 62));
    part.put(&[0]);
    part.put(mac_key);
    part.put(mac);
    part.put(mkvp);
    add_subsection(draft, 0x14, part.as_mut_slice())
}

// Adds 14/0002, the dates: flags, activation and expiration.
pub fn dates(
    draft: &mut [u8],
    flags: u16,
    activation: &[u8],
    expiration: &[u8],
) -> Result<u32, Refusal>
    ensures answer { result ≡ write_answer (addition Parts.dates (date_fields flags activation.now expiration.now) draft.old) }
    ensures draft { draft.new ≡ draft_after (addition Parts.dates (date_fields flags activation.now expiration.now) draft.old) draft.old }
{
    if activation.len() != 4 || expiration.len() != 4 {
        return not_fitting(draft);
    }
    let mut part = Buffer::<16>::new();
    part.put(&subsection_head(0x0002, 16));
    part.put(&[0]);
    part.put(&flags.to_be_bytes());
    part.put(activation);
    part.put(expiration);
    add_subsection(draft, 0x14, part.as_mut_slice())
}
