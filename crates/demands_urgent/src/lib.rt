// What is claimed of urgent requests first, page 02 'Ask 11', as theorems over the planner's contract; no code.
#![tactic(auto)]
