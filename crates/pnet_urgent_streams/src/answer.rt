use units::BitPeriods;

// What a report goes by of a sheet that is accepted: the streams, the first that first-come refuses, the number past the last where there is none, and its R, 0 where
// there is none.
#[derive(Clone, Copy)]
pub struct Listed {
    pub streams: usize,
    pub late: usize,
    pub bound: BitPeriods,
}
