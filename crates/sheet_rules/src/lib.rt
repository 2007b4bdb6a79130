// What a sheet is, page 01 'Sheet records' and 'Numbered refusals' 1..7, and page 02 'Ask 7', 'Ask 8' and 'Ask 10': definitions and laws, no code.
#![tactic(auto)]
