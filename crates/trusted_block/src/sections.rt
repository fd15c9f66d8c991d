// The additions of the five sections for host programs in C.
// All contracts here are one but for the kind and its fields: the answer's numbers are those of `write_answer (addition KIND
// FIELDS draft)`, and the draft then holds `draft_after` of the same.
ghost use Rattle.std.specs.Prelude.{◌≡◌, ◌∷◌, []};
ghost use Rattle.format.specs.Parts as Parts;
ghost use Rattle.format.specs.Writer.{write_answer, draft_after, addition, public_key_fields, rule_fields, information_fields};
ghost use Rattle.format.specs.GivenNumbers.{number_of, second_of};

use trusted_block_numbers::give;

// Adds the public key, section 11.
#[unsafe(no_mangle)]
pub extern "C" fn tb_add_public_key(
    draft: &mut [u8],
    modulus_bits: u16,
    exponent: &[u8],
    modulus: &[u8],
    flags: u32,
    second: &mut u32,
) -> u32
    ensures number { result ≡ number_of (write_answer (addition Parts.public_key (public_key_fields modulus_bits exponent.now modulus.now flags) draft.old)) }
    ensures draft { draft.new ≡ draft_after (addition Parts.public_key (public_key_fields modulus_bits exponent.now modulus.now flags) draft.old) draft.old }
    ensures second { second.new ≡ second_of (write_answer (addition Parts.public_key (public_key_fields modulus_bits exponent.now modulus.now flags) draft.old)) }
{
    give(
        add_key_and_data::public_key(draft, modulus_bits, exponent, modulus, flags),
        second,
    )
}

// Adds a rule, section 12.
#[unsafe(no_mangle)]
pub extern "C" fn tb_add_rule(
    draft: &mut [u8],
    rule_id: &[u8],
    flags: u32,
    generated_length: u8,
    key_check: u8,
    symmetric_format: u8,
    asymmetric_format: u8,
    second: &mut u32,
) -> u32
    ensures number { result ≡ number_of (write_answer (addition Parts.rule (rule_fields rule_id.now flags generated_length key_check symmetric_format asymmetric_format) draft.old)) }
    ensures draft { draft.new ≡ draft_after (addition Parts.rule (rule_fields rule_id.now flags generated_length key_check symmetric_format asymmetric_format) draft.old) draft.old }
    ensures second { second.new ≡ second_of (write_answer (addition Parts.rule (rule_fields rule_id.now flags generated_length key_check symmetric_format asymmetric_format) draft.old)) }
{
    give(
        add_fixed_sections::rule(
            draft,
            rule_id,
            flags,
            generated_length,
            key_check,
            symmetric_format,
            asymmetric_format,
        ),
        second,
    )
}

// Adds the name, section 13.
#[unsafe(no_mangle)]
pub extern "C" fn tb_add_name(draft: &mut [u8], name: &[u8], second: &mut u32) -> u32
    ensures number { result ≡ number_of (write_answer (addition Parts.name (name.now ∷ []) draft.old)) }
    ensures draft { draft.new ≡ draft_after (addition Parts.name (name.now ∷ []) draft.old) draft.old }
    ensures second { second.new ≡ second_of (write_answer (addition Parts.name (name.now ∷ []) draft.old)) }
{
    give(add_fixed_sections::name(draft, name), second)
}

// Adds the information on the block, section 14.
#[unsafe(no_mangle)]
pub extern "C" fn tb_add_information(draft: &mut [u8], flags: u32, second: &mut u32) -> u32
    ensures number { result ≡ number_of (write_answer (addition Parts.information (information_fields flags) draft.old)) }
    ensures draft { draft.new ≡ draft_after (addition Parts.information (information_fields flags) draft.old) draft.old }
    ensures second { second.new ≡ second_of (write_answer (addition Parts.information (information_fields flags) draft.old)) }
{
    give(add_fixed_sections::information(draft, flags), second)
}

// Adds application data, section 15.
#[unsafe(no_mangle)]
pub extern "C" fn tb_add_application_data(draft: &mut [u8], data: &[u8], second: &mut u32) -> u32
    ensures number { result ≡ number_of (write_answer (addition Parts.application_data («data».now ∷ []) draft.old)) }
    ensures draft { draft.new ≡ draft_after (addition Parts.application_data («data».now ∷ []) draft.old) draft.old }
    ensures second { second.new ≡ second_of (write_answer (addition Parts.application_data («data».now ∷ []) draft.old)) }
{
    give(add_key_and_data::application_data(draft, data), second)
}
