// The terms of a reading in one pass. `None` is answered where the pass is to be given up; nothing is promised then.
#![tactic(auto)]

pub mod stack; // stack.rt: the terms that wait
pub mod places; // places.rt: words, heads and variables beside declarations
pub mod sorts; // sorts.rt: the sorts that a symbol takes; variables of a let
pub mod ends; // ends.rt: terms placed where a formula ends
