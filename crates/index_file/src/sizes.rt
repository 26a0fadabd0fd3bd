//! What rows are read by, and what is left to read of them.

ghost use Rattle.std.specs.Prelude.{◌≤◌};

/// What rows are read by: how many words a code has, and how many cells there are.
#[derive(Clone, Copy)]
pub(crate) struct Sizes {
    pub g: u32,
    pub cells: u32,
    ghost some_words: { 1 ≤ g },
    ghost few_words: { g ≤ 32 },
    ghost some_cells: { 1 ≤ cells },
    ghost few_cells: { cells ≤ 1048576 },
}

/// Of version 1: so many rows, of cells from `low` on.
#[derive(Clone, Copy)]
pub(crate) struct RowsAhead {
    pub left: u32,
    pub low: u32,
}

/// Of version 2: so many members of a cell, and then so many groups, of `left` rows together and of cells from `low` on.
#[derive(Clone, Copy)]
pub(crate) struct GroupsAhead {
    pub cell: u32,
    pub members: u32,
    pub groups: u32,
    pub left: u32,
    pub low: u32,
}

/// What is left to read of an index's rows.
#[derive(Clone, Copy)]
pub(crate) enum Ahead {
    Rows(RowsAhead),
    Groups(GroupsAhead),
}
