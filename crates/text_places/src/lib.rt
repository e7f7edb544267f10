// Where a byte of a text stands, and how its line is shown.
#![tactic(auto)]

pub mod places; // places.rt: line and column of a byte, the end of its line
pub mod shown; // shown.rt: the part of a line that is shown, and the mark under a byte
