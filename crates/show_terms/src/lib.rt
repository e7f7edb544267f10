// For the program show: what a refusal by 7 to 11 means.
#![tactic(auto)]

pub mod bad_terms; // bad_terms.rt: 7 to 9
pub mod bad_contexts; // bad_contexts.rt: 10 and 11
