// The reader of formula texts, as definitions: no code. What a text is read as, and what is answered, is in specs/, with the demands and their proofs.
#![tactic(auto)]
