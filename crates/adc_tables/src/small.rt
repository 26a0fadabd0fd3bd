//! Small tables in a room that is taken once.
ghost use Rattle.std.specs.Prelude.{◌≡◌, ℕ, ◌+◌, ◌*◌, ◌-◌, ◌/◌, ◌^◌, ◌<◌, ◌≤◌, List, length, map, min, slice_index, IfOk};
ghost use Rattle.book_model.specs.Sums.{numbers_below, least};
ghost use Rattle.book_model.specs.Book.{Book};
ghost use Rattle.book_model.specs.Bound.{base_sum, small, bound, threshold};
ghost use Rattle.book_model.specs.Answer.{table_distance};
ghost use Rattle.shape_core.specs.Word.{code_of_words};
ghost use Rattle.lane_kernels.specs.Sums.{AreTables, code_sum};
ghost use Rattle.adc_tables.specs.Full.{Full, HasSizes, IsFilledFor};
ghost use Rattle.adc_tables.specs.Small.{HaveSizes, small_table, small_of};

use crate::FullTables;
use crate::entries::least_of;
use crate::steps::Steps;
use adc_ports::Memory;
use lane_kernels::{LaneMeter, SplitTable, sum32};
use shape_core::Shape;
use std::alloc::Global;
use std::marker::{Model, PhantomData};

/// For each sub-quantizer of a book the small entries of its words, as the lanes of a scan pick them.
#[derive(Drop)]
pub struct SmallTables<S: Shape> {
    g: u32,
    theta0: u64,
    base: u64,
    step: u64,
    parts: Vec<SplitTable>,
    shape: PhantomData<S>,
}

impl<S: Shape> Model for SmallTables<S> {
    ghost use Rattle.adc_tables.specs.Small.{Small};

    ghost Value = { Small };

    ghost use Rattle.adc_tables.specs.View.{view_small, IsSmall};

    ghost view = { view_small };

    ghost invariant = { λ small. IsSmall S.widths small };
}

impl<S: Shape> SmallTables<S> {
    /// Room for the tables of codes of g words. It alone takes memory.
    ///
    /// # Errors
    /// `Memory` if memory runs out.
    pub fn with_room(alloc: Global, g: u32) -> Result<SmallTables<S>, Memory>
        ensures { IfOk result (λ small. small.g ≡ g) }
    {
        Ok(SmallTables {
            g,
            theta0: 0,
            base: 0,
            step: 1,
            parts: zero_parts::<S>(alloc, g)?,
            shape: PhantomData,
        })
    }

    /// Fills the tables from full ones of this g. The sum of bases is at most theta0, the k-th least distance so far.
    pub fn fill(&mut self, full: &FullTables<S>, theta0: u64)
        requires room { full.now.g ≡ self.old.g }
        requires above { base_sum full.now.tables ≤ theta0 }
        ensures filled { self.new ≡ small_of S.widths full.now theta0 }
        ensures room { self.new.g ≡ self.old.g }
        ensures few { self.new.g ≤ 32 }
        ensures theta0 { self.new.theta0 ≡ theta0 }
        ensures base { self.new.base ≡ base_sum full.now.tables }
    {
        let _g = full.g();
        let base = full.base_sum();
        let step = (theta0 - base) / 255 + 1;
        self.theta0 = theta0;
        self.base = base;
        self.step = step;
        fill_parts(&mut self.parts, full, &Steps::new(step));
    }

    /// The greatest bound that is kept while theta is the k-th least distance. It is at most 254.
    pub fn threshold(&self, theta: u64) -> u8
        requires above { self.now.base ≤ theta }
        requires below { theta ≤ self.now.theta0 }
        ensures value { (full : Full) → self.now ≡ small_of S.widths full self.now.theta0 →
            result ≡ threshold full.tables self.now.theta0 theta }
        ensures steps { result ≡ (theta - self.now.base) / self.now.size }
        ensures fits { result ≤ 254 }
    {
        ((theta - self.base) / self.step) as u8
    }

    /// The bound of a code of g words, which raises the meter by one. Where it is above the threshold of theta, the code
    /// lies farther than theta.
    pub fn bound(&self, code: &[u16], lanes: &mut LaneMeter) -> u8
        requires words { length code.now ≡ self.now.g }
        requires filled { self.now.g ≤ 32 }
        requires meter { lanes.old ≤ 2 ^ 63 }
        ensures sum { result ≡ min 255 (code_sum S.widths self.now.parts code.now) }
        ensures value { (full : Full) → self.now ≡ small_of S.widths full self.now.theta0 →
            result ≡ bound full.tables self.now.theta0 (code_of_words S.widths code.now) }
        ensures far { (full : Full) (book : Book) (query : List ℕ) (theta : ℕ) → self.now ≡ small_of S.widths full self.now.theta0 →
            IsFilledFor S.widths book query full → threshold full.tables self.now.theta0 theta < result →
            theta < table_distance book query (code_of_words S.widths code.now) }
        ensures raised { lanes.new ≡ lanes.old + 1 }
    {
        let mut words = [[0; 32]; 32];
        for (w, word) in code.iter().enumerate() {
            words[w] = [*word; 32];
        }
        let bounds = sum32::<S>(&self.parts, &words[..code.len()], lanes);
        bounds[0]
    }

    /// The tables, one for each field of a code, of its field's width.
    #[inline(always)]
    pub fn parts(&self) -> &[SplitTable]
        ensures value { result.now ≡ self.now.parts }
        ensures tables { AreTables S.widths self.now.g result.now }
    {
        &self.parts
    }
}

/// Tables of zeros, one for each field of a code of g words.
pub fn zero_parts<S: Shape>(alloc: Global, g: u32) -> Result<Vec<SplitTable>, Memory>
    ensures tables { IfOk result (λ parts. AreTables S.widths g parts.items) }
    ensures sizes { IfOk result (λ parts. HaveSizes S.widths parts.items) }
{
    let count = g as usize * S::FIELDS;
    let Ok(mut parts) = Vec::with_capacity(alloc, count) else {
        return Err(Memory);
    };
    for j in 0..count {
        let width = S::WIDTHS[j % S::FIELDS];
        let Ok(()) = parts.push(SplitTable::zero(width)) else {
            return Err(Memory);
        };
    }
    Ok(parts)
}

/// Fills each part from its full table.
fn fill_parts<S: Shape>(parts: &mut [SplitTable], full: &FullTables<S>, steps: &Steps)
    requires full { HasSizes S.widths full.now }
    requires tables { AreTables S.widths full.now.g parts.old }
    requires sizes { HaveSizes S.widths parts.old }
    ensures { parts.new ≡ map (small_table S.widths steps.now.step full.now.tables) (numbers_below (length full.now.tables)) }
{
    let mut at = 0;
    for (j, part) in parts.iter_mut().enumerate() {
        let table = full.table(j, at);
        fill_part(part, table, steps);
        at += table.len();
    }
}

/// Fills a part from its full table.
#[inline(always)]
fn fill_part(part: &mut SplitTable, table: &[u64], steps: &Steps)
    requires size { length table.now ≡ 2 ^ part.old.width }
    requires entries { length part.old.entries ≡ length table.now }
    requires short { length table.now ≤ 256 }
    requires small { (i : ℕ) → slice_index table.now i ≤ 72057594037927936 }
    ensures width { part.new.width ≡ part.old.width }
    ensures entries { part.new.entries ≡ map (small steps.now.step table.now) (numbers_below (length table.now)) }
{
    fill_in_steps(part, table, least_of(table), steps);
}

/// Fills a part from a full table whose least entry is `base`.
pub fn fill_in_steps(part: &mut SplitTable, table: &[u64], base: u64, steps: &Steps)
    requires size { length table.now ≡ 2 ^ part.old.width }
    requires entries { length part.old.entries ≡ length table.now }
    requires short { length table.now ≤ 256 }
    requires small { (i : ℕ) → slice_index table.now i ≤ 72057594037927936 }
    requires base { base ≡ least table.now }
    ensures width { part.new.width ≡ part.old.width }
    ensures entries { part.new.entries ≡ map (small steps.now.step table.now) (numbers_below (length table.now)) }
{
    for (w, entry) in table.iter().enumerate() {
        part.set(w as u32, steps.count(*entry - base));
    }
}
