// Definitions and laws that every layer shares, and what every layer answers in place of a result that it refuses.
#![tactic(auto)]

// A refusal: its number and its place, as the page's list of refusals has them.
#[derive(Clone, Copy)]
pub struct Refusal {
    pub no: u8,
    pub place: usize,
}
