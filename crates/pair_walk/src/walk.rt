//! The walk itself. A row is the cells of one word of part 0, and at most one cell of each row waits.
ghost use Rattle.std.specs.Prelude.{◌≡◌, ◌+◌, ◌*◌, ◌^◌, ◌<◌, ◌≤◌, ◌↔◌, [], ◌∷◌, ◌++◌, length, drop, slice_get, Some, IsNone, IfSome};
ghost use Rattle.std.specs.List.Sorted.{IsPermutation};
ghost use Rattle.coarse_rank.specs.Ranked.{IsFilled, cells_of};
ghost use Rattle.pair_walk.specs.Walking.{entry_of, next_in_row, AreWaiting, IsWalkOver};

use crate::queue::{Entry, insert_last, replace_first};
use coarse_rank::{PairMeter, Ranks};
use std::marker::Model;

/// The most rows, as there are words of part 0.
const ROWS: usize = 1024;

/// A cell and the sum of the squared distances of its two words.
#[derive(Debug, Clone, Copy, PartialEq, Eq)]
pub struct Cell {
    pub number: u32,
    pub sum: u64,
}

/// Gives the cells of two ranked lists in their order.
#[derive(Drop)]
pub struct Walk {
    waiting: [Entry; ROWS],
    len: usize,
    opened: u32,
    given: u32,
}

impl Model for Walk {
    ghost use Rattle.pair_walk.specs.Walking.{Walking};

    ghost Value = { Walking };

    ghost use Rattle.pair_walk.specs.View.{view_walk, IsWalk};

    ghost view = { view_walk };

    ghost invariant = { IsWalk };
}

impl Walk {
    /// A walk that has not begun.
    pub fn new() -> Walk
        ensures { result ≡ record { waiting = []; opened = 0; given = 0 } }
    {
        let none = Entry {
            sum: 0,
            cell: 0,
            a: 0,
            b: 0,
        };
        Walk {
            waiting: [none; ROWS],
            len: 0,
            opened: 0,
            given: 0,
        }
    }

    /// Begins anew, over ranks that were filled.
    pub fn start(&mut self, ranks: &Ranks, pairs: &mut PairMeter)
        requires filled { IsFilled ranks.now }
        requires room { pairs.old ≤ 2 ^ 62 + 2 ^ 32 }
        ensures over { IsWalkOver ranks.now self.new }
        ensures none_given { self.new.given ≡ 0 }
        ensures never_falls { pairs.old ≤ pairs.new }
        ensures rise { pairs.new ≤ pairs.old + 1 }
    {
        self.waiting[0] = entry_at(ranks, 0, 0, pairs);
        self.len = 1;
        self.opened = 1;
        self.given = 0;
    }

    /// The next cell of the order, over the ranks that were given to `start`. `None` comes if all were given.
    pub fn next(&mut self, ranks: &Ranks, pairs: &mut PairMeter) -> Option<Cell>
        requires over { IsWalkOver ranks.now self.old }
        requires room { pairs.old ≤ 2 ^ 62 + 2 ^ 32 }
        ensures over { IsWalkOver ranks.now self.new }
        ensures none { IsNone result ↔ (self.old.given ≡ ranks.now.k0 * ranks.now.k1) }
        ensures place { IfSome result (λ cell. slice_get (cells_of ranks.now) self.old.given ≡ Some (cell.sum, cell.number)) }
        ensures given { IfSome result (λ _. self.new.given ≡ self.old.given + 1) }
        ensures rest { IfSome result (λ cell. drop self.old.given (cells_of ranks.now) ≡ (cell.sum, cell.number) ∷ drop self.new.given (cells_of ranks.now)) }
        ensures no_rest { IsNone result → drop self.old.given (cells_of ranks.now) ≡ [] }
        ensures unchanged { IsNone result → self.new ≡ self.old }
        ensures free { IsNone result → pairs.new ≡ pairs.old }
        ensures never_falls { pairs.old ≤ pairs.new }
        ensures rise { pairs.new ≤ pairs.old + 2 }
    {
        if self.len == 0 {
            return None;
        }
        let first = self.waiting[0];
        self.pass(first, ranks, pairs);
        self.given += 1;
        Some(Cell {
            number: first.cell,
            sum: first.sum,
        })
    }

    /// Puts its successors in the place of the first: the next cell of its row, and if it is the first of the last
    /// row that was opened, the first cell of the next row.
    fn pass(&mut self, first: Entry, ranks: &Ranks, pairs: &mut PairMeter)
        requires over { IsWalkOver ranks.now self.old }
        requires first { self.old.waiting ≡ first ∷ drop 1 self.old.waiting }
        requires room { pairs.old ≤ 2 ^ 62 + 2 ^ 32 }
        ensures over { IsWalkOver ranks.now (record self.new { given = self.new.given + 1 }) }
        ensures same { self.new.given ≡ self.old.given }
        ensures never_falls { pairs.old ≤ pairs.new }
        ensures rise { pairs.new ≤ pairs.old + 2 }
    {
        self.advance(first, ranks, pairs);
        if first.b == 0 && self.opened < ranks.k0() {
            self.open_row(ranks, pairs);
        }
    }

    /// Puts the next cell of its row in the place of the first, or takes the first away if its row ends.
    fn advance(&mut self, first: Entry, ranks: &Ranks, pairs: &mut PairMeter)
        requires entries { AreWaiting ranks.now self.old.waiting self.old.opened }
        requires first { self.old.waiting ≡ first ∷ drop 1 self.old.waiting }
        requires room { pairs.old ≤ 2 ^ 63 }
        ensures entries { AreWaiting ranks.now self.new.waiting self.new.opened }
        ensures moves { IsPermutation (next_in_row ranks.now first ++ drop 1 self.old.waiting) self.new.waiting }
        ensures same { (self.new.opened ≡ self.old.opened) × (self.new.given ≡ self.old.given) }
        ensures never_falls { pairs.old ≤ pairs.new }
        ensures rise { pairs.new ≤ pairs.old + 1 }
    {
        if u32::from(first.b) + 1 < ranks.k1() {
            let next = entry_at(ranks, first.a, first.b + 1, pairs);
            replace_first(&mut self.waiting[..self.len], next);
        } else {
            self.len -= 1;
            let last = self.waiting[self.len];
            if self.len > 0 {
                replace_first(&mut self.waiting[..self.len], last);
            }
        }
    }

    /// Opens the next row.
    fn open_row(&mut self, ranks: &Ranks, pairs: &mut PairMeter)
        requires entries { AreWaiting ranks.now self.old.waiting self.old.opened }
        requires more { self.old.opened < ranks.now.k0 }
        requires room { pairs.old ≤ 2 ^ 63 }
        ensures entries { AreWaiting ranks.now self.new.waiting self.new.opened }
        ensures moves { IsPermutation (entry_of ranks.now self.old.opened 0 ∷ self.old.waiting) self.new.waiting }
        ensures opened { self.new.opened ≡ self.old.opened + 1 }
        ensures same { self.new.given ≡ self.old.given }
        ensures raised { pairs.new ≡ pairs.old + 1 }
    {
        let entry = entry_at(ranks, self.opened as u16, 0, pairs);
        self.len += 1;
        insert_last(&mut self.waiting[..self.len], entry);
        self.opened += 1;
    }
}

/// The entry of two ranked words, which takes one sum.
fn entry_at(ranks: &Ranks, a: u16, b: u16, pairs: &mut PairMeter) -> Entry
    requires a_there { a < length ranks.now.words0 }
    requires b_there { b < length ranks.now.words1 }
    requires room { pairs.old ≤ 2 ^ 63 }
    ensures value { result ≡ entry_of ranks.now a b }
    ensures raised { pairs.new ≡ pairs.old + 1 }
{
    Entry {
        sum: ranks.sum(u32::from(a), u32::from(b), pairs),
        cell: ranks.cell(u32::from(a), u32::from(b)),
        a,
        b,
    }
}
