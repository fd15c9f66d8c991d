// Public: the addition of 12/0005, the token parameters, to the last section of a lent draft. It tests the lengths of what it
// is lent, makes the subsection's bytes in an array of its own and adds them. The call asks nothing.
#![tactic(auto)]

ghost use Rattle.std.specs.Prelude.{◌≡◌, [], ◌∷◌};
ghost use Rattle.format.specs.Parts.{token_parameters};
ghost use Rattle.format.specs.Writer.{write_answer, draft_after, addition};

use format::Refusal;
use write_bytes::Buffer;
use write_section::heads::subsection_head;
use write_section::not_fitting;
use write_subsection::add_subsection;

// Adds 12/0005, the token parameters: a mask, a template of the same length, and the label template.
pub fn token_parameters(
    draft: &mut [u8],
    mask: &[u8],
    template: &[u8],
    label_template: &[u8],
) -> Result<u32, Refusal>
    ensures answer { result ≡ write_answer (addition token_parameters (mask.now ∷ template.now ∷ label_template.now ∷ []) draft.old) }
    ensures draft { draft.new ≡ draft_after (addition token_parameters (mask.now ∷ template.now ∷ label_template.now ∷ []) draft.old) draft.old }
{
    let Ok(mask_count) = u8::try_from(mask.len()) else {
        return not_fitting(draft);
    };
    if template.len() != mask.len() {
        return not_fitting(draft);
    }
    let Ok(label_count) = u8::try_from(label_template.len()) else {
        return not_fitting(draft);
    };
    let n = 10 + 2 * u16::from(mask_count) + u16::from(label_count);
    let mut part = Buffer::<775>::new();
    part.put(&subsection_head(0x0005, n));
    part.put(&[0, 0, 0, mask_count]);
    part.put(mask);
    part.put(template);
    part.put(&[label_count]);
    part.put(label_template);
    add_subsection(draft, 0x12, part.as_mut_slice())
}
