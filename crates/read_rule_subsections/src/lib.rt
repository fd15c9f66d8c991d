// Internal: the five subsections of a rule, each by itself. Each test is made once and in order. The functions ask that the
// bytes are there that earlier tests have shown to be there.
#![tactic(auto)]

pub mod parameters; // parameters.rt: 0003, the export parameters; 0005, the token parameters
pub mod references; // references.rt: 0001, the transport variant; 0002 and 0004, the references to other rules
