// The numbers of the refusals.

// The header: too short, an id that is no token's, the version, the length, the reserved bytes.
pub const SHORT_HEADER: u32 = 1;

pub const UNKNOWN_TOKEN: u32 = 2;

pub const HEADER_VERSION: u32 = 3;

pub const HEADER_LENGTH: u32 = 4;

pub const HEADER_RESERVED: u32 = 5;

// A section: its length, an id that is no section's, a kind or a Rule ID that stands before, inner lengths that do not make
// its length.
pub const SECTION_LENGTH: u32 = 6;

pub const UNKNOWN_SECTION: u32 = 7;

pub const REPEATED_SECTION: u32 = 9;

pub const INNER_LENGTHS: u32 = 15;

// A section or a subsection: the version, reserved bytes, flags and other values.
pub const VERSION: u32 = 8;

pub const RESERVED: u32 = 10;

pub const VALUE: u32 = 11;

// A subsection: its length or inner lengths, a tag that the section does not have, a tag that stands before.
pub const SUBSECTION_LENGTH: u32 = 12;

pub const UNKNOWN_SUBSECTION: u32 = 13;

pub const REPEATED_SUBSECTION: u32 = 14;

// Single fields: the numbers of a key, the characters of a Rule ID or a label template, the lengths that parameters state,
// dates, the MKVP of an external token.
pub const KEY: u32 = 16;

pub const CHARACTERS: u32 = 17;

pub const PARAMETER: u32 = 18;

pub const DATE: u32 = 19;

pub const MKVP: u32 = 21;

// A part that is required and does not stand there.
pub const MISSING: u32 = 20;

// What calls refuse beside the reading: a row, a field or a place that is none, no room, a lent field of another length, no
// section that the subsection can join.
pub const NOT_THERE: u32 = 22;

pub const NO_ROOM: u32 = 23;

pub const UNFIT: u32 = 24;

pub const NO_SECTION: u32 = 25;
