// The grammar of formula texts: no code. The matter is in specs/, with the theorems and their proofs.
#![tactic(auto)]
