// Internal: the part of a row added to a draft by the call for its kind, its fields taken from their views. The functions ask
// that the row is there and has the kind.
#![tactic(auto)]

mod fields; // fields.rt: the fields of a row
pub mod sections; // sections.rt: the addition of a row that is a section
pub mod subsections; // subsections.rt: the addition of a row that is a subsection

pub use fields::RowFields;
