use units::RingPeriods;

// What the planner answers of a sheet that it accepts: the largest TTR, and the first stream that fails at TTR + 1.
#[derive(Clone, Copy)]
pub struct Plan {
    pub rotation: RingPeriods,
    pub stream: usize,
}
