// For the program show: a line for each record, and the steps as a graph.
#![tactic(auto)]

pub mod records; // records.rt: a line for each record
pub mod dot; // dot.rt: the graph
