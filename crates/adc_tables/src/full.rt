//! Full tables in a room that is taken once.
ghost use Rattle.std.specs.Prelude.{◌≡◌, ℕ, ◌+◌, ◌*◌, ◌^◌, ◌<◌, ◌≤◌, List, length, slice_index, IfOk};
ghost use Rattle.book_model.specs.Book.{Book};
ghost use Rattle.book_model.specs.Bound.{table_at, picked_sum, base_sum};
ghost use Rattle.book_model.specs.Answer.{table_distance};
ghost use Rattle.shape_core.specs.Word.{code_of_words};
ghost use Rattle.adc_tables.specs.Full.{table_size, table_start, full_of, HasSizes, IsFilledFor};

use crate::FullMeter;
use crate::entries::{fill_tables, least_of, picked_words, size_of_table, size_of_tables};
use adc_ports::Memory;
use codebook_core::Codebook;
use shape_core::Shape;
use std::alloc::Global;
use std::marker::{Model, PhantomData};

/// For each sub-quantizer of a book the squared distances of a query's stretch to its words. The entries lie in one stretch
/// of memory, one table after another, and are private: `distance` alone gives their sums.
#[derive(Drop)]
pub struct FullTables<S: Shape> {
    g: u32,
    entries: Vec<u64>,
    shape: PhantomData<S>,
}

impl<S: Shape> Model for FullTables<S> {
    ghost use Rattle.adc_tables.specs.Full.{Full};

    ghost Value = { Full };

    ghost use Rattle.adc_tables.specs.View.{view_full, IsFull};

    ghost view = { λ full. view_full S.widths full };

    ghost invariant = { λ full. IsFull S.widths full };
}

impl<S: Shape> FullTables<S> {
    /// Room for the tables of a book. It alone takes memory.
    ///
    /// # Errors
    /// `Memory` if memory runs out.
    pub fn with_room(alloc: Global, book: &Codebook<S>) -> Result<FullTables<S>, Memory>
        ensures { IfOk result (λ full. full.g ≡ book.now.g) }
    {
        let _d = book.d();
        let count = size_of_tables::<S>(book.subs() as usize);
        let Ok(entries) = vec![in alloc; 0; count] else {
            return Err(Memory);
        };
        Ok(FullTables {
            g: book.g(),
            entries,
            shape: PhantomData,
        })
    }

    /// Fills the tables for a query of d bytes: entry w of table j is the squared distance of its j-th stretch to word w.
    pub fn fill(&mut self, book: &Codebook<S>, query: &[u8])
        requires room { self.old.g ≡ book.now.g }
        requires query { length query.now ≡ book.now.d }
        ensures filled { IsFilledFor S.widths book.now query.now self.new }
        ensures tables { self.new ≡ full_of book.now query.now }
    {
        let _d = book.d();
        fill_tables(&mut self.entries, book, query);
    }

    /// The table distance of a code of g words, which raises the meter by one.
    pub fn distance(&self, code: &[u16], full: &mut FullMeter) -> u64
        requires words { length code.now ≡ self.now.g }
        requires meter { full.old ≤ 2 ^ 63 }
        ensures picked { result ≡ picked_sum self.now.tables (code_of_words S.widths code.now) }
        ensures distance { (book : Book) (query : List ℕ) → IsFilledFor S.widths book query self.now →
            result ≡ table_distance book query (code_of_words S.widths code.now) }
        ensures raised { full.new ≡ full.old + 1 }
    {
        full.raise();
        picked_words::<S>(&self.entries, code)
    }

    /// The sum of the least entries of all tables, below which no distance lies.
    pub fn base_sum(&self) -> u64
        ensures { result ≡ base_sum self.now.tables }
    {
        let mut sum = 0;
        let mut at = 0;
        for j in 0..self.g as usize * S::FIELDS {
            sum += least_of(self.table(j, at));
            at += size_of_table::<S>(j);
        }
        sum
    }

    /// Table j, which begins at `at`.
    #[inline(always)]
    pub(crate) fn table(&self, j: usize, at: usize) -> &[u64]
        requires number { j < length self.now.tables }
        requires start { at ≡ table_start S.widths j }
        ensures value { result.now ≡ table_at self.now.tables j }
        ensures size { length result.now ≡ table_size S.widths j }
        ensures some { 1 ≤ length result.now }
        ensures short { length result.now ≤ 256 }
        ensures small { (i : ℕ) → slice_index result.now i ≤ 4397912294400 }
    {
        &self.entries[at..at + size_of_table::<S>(j)]
    }

    /// The number of words of a code. It also tells how many tables there are, and how long each is.
    pub(crate) fn g(&self) -> u32
        ensures value { result ≡ self.now.g }
        ensures sizes { HasSizes S.widths self.now }
    {
        self.g
    }
}
