// The customer's three demands, as theorems over the planners' contracts; no code.
#![tactic(auto)]
