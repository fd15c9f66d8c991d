// Internal: what a token or a draft holds, its header and its sections, up to the first fault.
#![tactic(auto)]

pub mod header; // header.rt: the header
mod other; // other.rt: a section that is no rule
mod runs; // runs.rt: the rules that follow each other
pub mod whole; // whole.rt: the sections, one after another
