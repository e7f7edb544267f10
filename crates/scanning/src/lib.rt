// The scan of a text: 19 and 20, for texts of any length and nesting.
// Its functions take places in the text, and no slices of it from a place on: a refusal tells its byte.
#![tactic(auto)]

pub mod tables; // tables.rt: what may follow where
pub mod runs; // runs.rt: blanks and runs of symbol characters
pub mod words; // words.rt: one word
pub mod guesses; // guesses.rt: the second scan
pub mod levels; // levels.rt: the spots held for open brackets
pub mod scan; // scan.rt: one lexeme, and the scan
