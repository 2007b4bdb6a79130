use units::Micros;

// What the planner answers of a sheet whose table stands in the lent run.
#[derive(Clone, Copy)]
pub struct Plan {
    pub microcycle: Micros,
    pub slots: u32,
    pub rows: u32,
}
