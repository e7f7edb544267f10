// The records of a formula's term, read from its text by functions that call on each other.
#![tactic(auto)]

pub mod reading_terms; // reading_terms.rt: a formula, its parts, a quantifier, a let
pub mod texts; // texts.rt: the formula of a whole text
