//! The state of a query's scan.

/// How many passing rows the query saw, whether they reached k, and from then on the k-th least distance of the first k.
#[derive(Debug, Clone, Copy, PartialEq, Eq)]
pub struct ScanState {
    pub rows: u32,
    pub pruning: bool,
    pub theta0: u64,
}

impl ScanState {
    /// Before the first row.
    pub const START: ScanState = ScanState {
        rows: 0,
        pruning: false,
        theta0: 0,
    };
}
