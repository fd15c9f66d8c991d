// Public: the addition of 12/0003, the export parameters, to the last section of a lent draft. It tests the lengths of what it
// is lent, makes the subsection's bytes in an array of its own and adds them. The call asks nothing.
#![tactic(auto)]

ghost use Rattle.std.specs.Prelude.{◌≡◌};
ghost use Rattle.format.specs.Parts.{export_parameters};
ghost use Rattle.format.specs.Writer.{write_answer, draft_after, addition, export_fields};

use format::Refusal;
use write_bytes::Buffer;
use write_section::heads::subsection_head;
use write_section::not_fitting;
use write_subsection::add_subsection;

// Adds 12/0003, the export parameters: minimum and maximum, the variant and the control vector.
pub fn export_parameters(
    draft: &mut [u8],
    minimum: u8,
    maximum: u8,
    variant: &[u8],
    vector: &[u8],
) -> Result<u32, Refusal>
    ensures answer { result ≡ write_answer (addition export_parameters (export_fields minimum maximum variant.now vector.now) draft.old) }
    ensures draft { draft.new ≡ draft_after (addition export_parameters (export_fields minimum maximum variant.now vector.now) draft.old) draft.old }
{
    let Ok(variant_count) = u8::try_from(variant.len()) else {
        return not_fitting(draft);
    };
    let Ok(vector_count) = u8::try_from(vector.len()) else {
        return not_fitting(draft);
    };
    let n = 12 + u16::from(variant_count) + u16::from(vector_count);
    let mut part = Buffer::<522>::new();
    part.put(&subsection_head(0x0003, n));
    part.put(&[0, 0, 0, minimum, maximum, variant_count]);
    part.put(variant);
    part.put(&[vector_count]);
    part.put(vector);
    add_subsection(draft, 0x12, part.as_mut_slice())
}
