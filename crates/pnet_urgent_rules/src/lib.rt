// Page 02, 'Ask 11', urgent requests first, as definitions and laws; no code.
#![tactic(auto)]
