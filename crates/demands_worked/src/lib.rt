// Page 01's worked cases that are to be proved, the sheet of page 02, Ask 2, and the figure of Ask 5, in one table; no code.
#![tactic(auto)]
