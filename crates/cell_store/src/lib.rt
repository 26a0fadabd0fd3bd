//! A store of rows by cell that keeps the rows at its present stamp and at each pinned one.
#![tactic(auto)]

mod cells;
mod groups;
mod meter;
mod rows;
mod snapshot;
mod store;
mod view;

pub use meter::BlockMeter;
pub use snapshot::{ShownCell, Snapshot};
pub use store::CellStore;
pub use view::CellView;

/// When a live row dies.
pub const NEVER: u64 = 18_446_744_073_709_551_615;

/// What a cell keeps of a row beside its code: it lives from the stamp `born` up to the stamp `died`, which is
/// 18,446,744,073,709,551,615 while the row is live.
#[derive(Debug, Clone, Copy, PartialEq, Eq)]
pub struct Slot {
    pub id: u32,
    pub born: u64,
    pub died: u64,
}

/// Why a row was not inserted, in the order in which the causes are tried.
#[derive(Debug, Clone, Copy, PartialEq, Eq)]
pub enum InsertRefusal {
    /// The id is live.
    Present,
    /// As many rows are live as may be.
    Full,
    /// As many rows are live or needed by pinned stamps as may be.
    Held,
    /// Memory ran out.
    Memory,
}

/// Why a row was not put, in the order in which the causes are tried.
#[derive(Debug, Clone, Copy, PartialEq, Eq)]
pub enum PutRefusal {
    /// The id is not live, and as many rows are live as may be.
    Full,
    /// More rows would be live or needed by pinned stamps than may be.
    Held,
    /// Memory ran out.
    Memory,
}

/// As many pins are held as may be, 64.
#[derive(Debug, Clone, Copy, PartialEq, Eq)]
pub struct Sessions;

/// The id is not live.
#[derive(Debug, Clone, Copy, PartialEq, Eq)]
pub struct Absent;

/// Where a row was put: its cell, and whether it took the place of a live row of its id.
#[derive(Debug, Clone, Copy, PartialEq, Eq)]
pub struct Placed {
    pub cell: u32,
    pub replaced: bool,
}
