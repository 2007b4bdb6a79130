// What the program's commands share: the words that it is called with, what it is given as a sheet, and what it says of itself.
#![tactic(auto)]

pub mod help;
pub mod input;
pub mod words;
