// A formula read in one pass: its structure, its names, its sorts and its records together. `None` is answered where the pass is given up, and nothing is
// promised then: the text may be refused, or need more room than there is.
#![tactic(auto)]

pub mod one_pass; // one_pass.rt: functions that call on each other
pub mod texts; // texts.rt: a whole text
