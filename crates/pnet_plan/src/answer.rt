// What the planner answers of a sheet that it accepts: its masters and its streams.
#[derive(Clone, Copy)]
pub struct Plan {
    pub masters: usize,
    pub streams: usize,
}
