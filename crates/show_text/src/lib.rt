// For the program show: pieces of text, and terms in SMT-LIB.
#![tactic(auto)]

pub mod out; // out.rt: pieces of text
pub mod terms; // terms.rt: terms in SMT-LIB
