// The P-NET bus of page 01 as a definition, and demand 3; no code.
#![tactic(auto)]
