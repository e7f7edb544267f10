// The lexemes of a text: runs of symbol characters, names, the next lexeme.
#![tactic(auto)]

pub mod runs; // runs.rt: classes of bytes, runs compared with words
pub mod words; // words.rt: the word that a run is
pub mod names; // names.rt: the variable or symbol that a run names
pub mod lexemes; // lexemes.rt: the next lexeme
