// What a reading in one pass stands on: what lexemes spell and are read as (specs/, proofs/). No code.
#![tactic(auto)]
