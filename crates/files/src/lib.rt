// The job copied into the scratch, and the file stored from it.
#![tactic(auto)]

pub mod sections; // sections.rt: words copied from a file, and stored as bytes
pub mod copies; // copies.rt: the job's way into the scratch
pub mod stores; // stores.rt: the file stored
