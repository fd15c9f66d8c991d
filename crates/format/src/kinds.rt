// The twelve kinds of sections and subsections, each with the number that a row has for it.
ghost use Rattle.std.specs.Prelude.{MatchOption};
ghost use Rattle.format.specs.KindNames.{IsNumberOf, IsNoKind};

#[derive(Clone, Copy, Debug, PartialEq, Eq)]
pub enum Kind {
    PublicKey,
    Rule,
    TransportVariant,
    TransportRule,
    ExportParameters,
    SourceRule,
    TokenParameters,
    Name,
    Information,
    Protection,
    Dates,
    ApplicationData,
}

impl Kind {
    // The kind of a number: its section's id times 65,536 plus its subsection's tag, 0 for a section.
    pub fn from_number(number: u32) -> Option<Kind>
        ensures { MatchOption result (IsNoKind number) (IsNumberOf number) }
    {
        match number {
            0x110000 => Some(Kind::PublicKey),
            0x120000 => Some(Kind::Rule),
            0x120001 => Some(Kind::TransportVariant),
            0x120002 => Some(Kind::TransportRule),
            0x120003 => Some(Kind::ExportParameters),
            0x120004 => Some(Kind::SourceRule),
            0x120005 => Some(Kind::TokenParameters),
            0x130000 => Some(Kind::Name),
            0x140000 => Some(Kind::Information),
            0x140001 => Some(Kind::Protection),
            0x140002 => Some(Kind::Dates),
            0x150000 => Some(Kind::ApplicationData),
            _ => None,
        }
    }
}
