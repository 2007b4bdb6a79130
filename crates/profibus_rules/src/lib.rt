// The PROFIBUS rules of page 01 as definitions and laws; no code.
#![tactic(auto)]
