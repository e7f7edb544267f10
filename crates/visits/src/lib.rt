// The visits of the writer.
#![tactic(auto)]

pub mod visits; // visits.rt: the visit to a term and the visit to a list, which call on each other
