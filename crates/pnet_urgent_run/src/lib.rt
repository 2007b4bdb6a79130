// The P-NET bus whose masters send urgent requests first, as a definition, and what Ask 11's figure promises of it; no code.
#![tactic(auto)]
