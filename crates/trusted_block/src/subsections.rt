// The additions of the seven subsections for host programs in C.
// All contracts here are one but for the kind and its fields: the answer's numbers are those of `write_answer (addition KIND
// FIELDS draft)`, and the draft then holds `draft_after` of the same.
ghost use Rattle.std.specs.Prelude.{◌≡◌, ◌∷◌, []};
ghost use Rattle.format.specs.Parts as Parts;
ghost use Rattle.format.specs.Writer.{write_answer, draft_after, addition, export_fields, date_fields};
ghost use Rattle.format.specs.GivenNumbers.{number_of, second_of};

use trusted_block_numbers::give;

// Adds the variant of the transport key, 0001 of a rule.
#[unsafe(no_mangle)]
pub extern "C" fn tb_add_transport_variant(
    draft: &mut [u8],
    variant: &[u8],
    second: &mut u32,
) -> u32
    ensures number { result ≡ number_of (write_answer (addition Parts.transport_variant (variant.now ∷ []) draft.old)) }
    ensures draft { draft.new ≡ draft_after (addition Parts.transport_variant (variant.now ∷ []) draft.old) draft.old }
    ensures second { second.new ≡ second_of (write_answer (addition Parts.transport_variant (variant.now ∷ []) draft.old)) }
{
    give(
        add_variant_and_references::transport_variant(draft, variant),
        second,
    )
}

// Adds the rule of the transport key, 0002 of a rule.
#[unsafe(no_mangle)]
pub extern "C" fn tb_add_transport_rule(draft: &mut [u8], rule_id: &[u8], second: &mut u32) -> u32
    ensures number { result ≡ number_of (write_answer (addition Parts.transport_rule (rule_id.now ∷ []) draft.old)) }
    ensures draft { draft.new ≡ draft_after (addition Parts.transport_rule (rule_id.now ∷ []) draft.old) draft.old }
    ensures second { second.new ≡ second_of (write_answer (addition Parts.transport_rule (rule_id.now ∷ []) draft.old)) }
{
    give(
        add_variant_and_references::transport_rule(draft, rule_id),
        second,
    )
}

// Adds the parameters of an export, 0003 of a rule.
#[unsafe(no_mangle)]
pub extern "C" fn tb_add_export_parameters(
    draft: &mut [u8],
    minimum: u8,
    maximum: u8,
    variant: &[u8],
    vector: &[u8],
    second: &mut u32,
) -> u32
    ensures number { result ≡ number_of (write_answer (addition Parts.export_parameters (export_fields minimum maximum variant.now vector.now) draft.old)) }
    ensures draft { draft.new ≡ draft_after (addition Parts.export_parameters (export_fields minimum maximum variant.now vector.now) draft.old) draft.old }
    ensures second { second.new ≡ second_of (write_answer (addition Parts.export_parameters (export_fields minimum maximum variant.now vector.now) draft.old)) }
{
    give(
        add_export_parameters::export_parameters(draft, minimum, maximum, variant, vector),
        second,
    )
}

// Adds the rule of the source key, 0004 of a rule.
#[unsafe(no_mangle)]
pub extern "C" fn tb_add_source_rule(draft: &mut [u8], rule_id: &[u8], second: &mut u32) -> u32
    ensures number { result ≡ number_of (write_answer (addition Parts.source_rule (rule_id.now ∷ []) draft.old)) }
    ensures draft { draft.new ≡ draft_after (addition Parts.source_rule (rule_id.now ∷ []) draft.old) draft.old }
    ensures second { second.new ≡ second_of (write_answer (addition Parts.source_rule (rule_id.now ∷ []) draft.old)) }
{
    give(
        add_variant_and_references::source_rule(draft, rule_id),
        second,
    )
}

// Adds the parameters of the source token, 0005 of a rule.
#[unsafe(no_mangle)]
pub extern "C" fn tb_add_token_parameters(
    draft: &mut [u8],
    mask: &[u8],
    template: &[u8],
    label_template: &[u8],
    second: &mut u32,
) -> u32
    ensures number { result ≡ number_of (write_answer (addition Parts.token_parameters (mask.now ∷ template.now ∷ label_template.now ∷ []) draft.old)) }
    ensures draft { draft.new ≡ draft_after (addition Parts.token_parameters (mask.now ∷ template.now ∷ label_template.now ∷ []) draft.old) draft.old }
    ensures second { second.new ≡ second_of (write_answer (addition Parts.token_parameters (mask.now ∷ template.now ∷ label_template.now ∷ []) draft.old)) }
{
    give(
        add_token_parameters::token_parameters(draft, mask, template, label_template),
        second,
    )
}

// Adds the protection, 0001 of section 14.
#[unsafe(no_mangle)]
pub extern "C" fn tb_add_protection(
    draft: &mut [u8],
    mac_key: &[u8],
    mac: &[u8],
    mkvp: &[u8],
    second: &mut u32,
) -> u32
    ensures number { result ≡ number_of (write_answer (addition Parts.protection (mac_key.now ∷ mac.now ∷ mkvp.now ∷ []) draft.old)) }
    ensures draft { draft.new ≡ draft_after (addition Parts.protection (mac_key.now ∷ mac.now ∷ mkvp.now ∷ []) draft.old) draft.old }
    ensures second { second.new ≡ second_of (write_answer (addition Parts.protection (mac_key.now ∷ mac.now ∷ mkvp.now ∷ []) draft.old)) }
{
    give(
        add_protection_and_dates::protection(draft, mac_key, mac, mkvp),
        second,
    )
}

// Adds the dates, 0002 of section 14.
#[unsafe(no_mangle)]
pub extern "C" fn tb_add_dates(
    draft: &mut [u8],
    flags: u16,
    activation: &[u8],
    expiration: &[u8],
    second: &mut u32,
) -> u32
    ensures number { result ≡ number_of (write_answer (addition Parts.dates (date_fields flags activation.now expiration.now) draft.old)) }
    ensures draft { draft.new ≡ draft_after (addition Parts.dates (date_fields flags activation.now expiration.now) draft.old) draft.old }
    ensures second { second.new ≡ second_of (write_answer (addition Parts.dates (date_fields flags activation.now expiration.now) draft.old)) }
{
    give(
        add_protection_and_dates::dates(draft, flags, activation, expiration),
        second,
    )
}
