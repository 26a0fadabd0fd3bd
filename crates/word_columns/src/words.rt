//! The type of a list of words by column.
ghost use Rattle.std.specs.Prelude.{◌≡◌, ℕ, ◌*◌, ◌<◌, ◌≤◌, [], length, map, slice_index, slice_index_or, IfOk};
ghost use Rattle.book_model.specs.Sums.{first_least};
ghost use Rattle.book_model.specs.Distance.{distances, nearest};
ghost use Rattle.word_columns.specs.Columns.{words_in_row};
ghost use Rattle.word_columns.specs.Left.{rest_dist};

use crate::blocks::distances_to_all;
use crate::building::{columns_of, norms_of};
use crate::least::first_least;
use crate::rests::rests_to_all;
use std::alloc::{AllocError, Global};
use std::marker::Model;

/// A list of 1 to 1024 words of one length, of 1 to 1024 components each, kept by column for distances to all of them.
/// It takes memory only where it is made: twice that of the words, and eight bytes a word.
#[derive(Drop)]
pub struct WordColumns {
    count: usize,
    size: usize,
    columns: Vec<u16>,
    norms: Vec<u64>,
}

impl Model for WordColumns {
    ghost use Rattle.std.specs.Prelude.{ℕ, List};

    ghost Value = { List (List ℕ) };

    ghost use Rattle.word_columns.specs.View.{view_words, IsKept};

    ghost view = { view_words };

    ghost invariant = { IsKept };
}

impl WordColumns {
    /// The columns of `count` words of `size` components each, which stand one after another.
    ///
    /// # Errors
    /// Where memory runs out.
    pub fn new(
        alloc: Global,
        components: &[u16],
        count: usize,
        size: usize,
    ) -> Result<WordColumns, AllocError>
        requires count { (1 ≤ count) × (count ≤ 1024) }
        requires size { (1 ≤ size) × (size ≤ 1024) }
        requires whole { length components.now ≡ count * size }
        ensures words { IfOk result (λ words. words ≡ words_in_row count size components.now) }
        ensures count { IfOk result (λ words. length words ≡ count) }
        ensures sizes { IfOk result (λ words. (w : ℕ) → w < length words → length (slice_index_or words w []) ≡ size) }
    {
        let columns = columns_of(alloc, components, count, size)?;
        let norms = norms_of(alloc, &columns, (count + 15) / 16, size)?;
        Ok(WordColumns {
            count,
            size,
            columns,
            norms,
        })
    }

    /// How many words there are.
    pub fn count(&self) -> usize
        ensures value { result ≡ length self.now }
        ensures range { (1 ≤ result) × (result ≤ 1024) }
    {
        self.count
    }

    /// Writes the squared distance of x, whose bytes each count 2 to the scale, to each word. It takes no memory.
    #[inline]
    pub fn distances(&self, scale: u32, x: &[u8], into: &mut [u64])
        requires scale { scale ≤ 8 }
        requires sizes { (w : ℕ) → w < length self.now → length (slice_index_or self.now w []) ≡ length x.now }
        requires room { length into.old ≡ length self.now }
        ensures distances { into.new ≡ distances scale self.now x.now }
        ensures small { (w : ℕ) → slice_index into.new w ≤ 4397912294400 }
    {
        distances_to_all(scale, x, &self.columns, &self.norms, into);
    }

    /// Writes the squared distance of what is left of x, whose bytes each count 2 to the scale, to each word, when a coarse word
    /// of as many components is taken off. A component u of a word stands for u - 32768 here. It takes no memory.
    #[inline]
    pub fn rest_distances(&self, scale: u32, x: &[u8], coarse: &[u16], into: &mut [u64])
        requires scale { scale ≤ 8 }
        requires short { length x.now ≤ 128 }
        requires coarse { length coarse.now ≡ length x.now }
        requires sizes { (w : ℕ) → w < length self.now → length (slice_index_or self.now w []) ≡ length x.now }
        requires room { length into.old ≡ length self.now }
        ensures distances { into.new ≡ map (rest_dist scale x.now coarse.now) self.now }
        ensures small { (w : ℕ) → slice_index into.new w ≤ 2198956147200 }
    {
        rests_to_all(scale, x, coarse, &self.columns, &self.norms, into);
    }

    /// The number of the nearest word to x, whose bytes each count 2 to the scale: the least number among ties.
    #[inline]
    pub fn nearest(&self, scale: u32, x: &[u8]) -> u32
        requires scale { scale ≤ 8 }
        requires sizes { (w : ℕ) → w < length self.now → length (slice_index_or self.now w []) ≡ length x.now }
        ensures value { result ≡ nearest scale self.now x.now }
        ensures within { result < length self.now }
    {
        match self.count() {
            0..=16 => self.nearest_in::<16>(scale, x),
            17..=256 => self.nearest_in::<256>(scale, x),
            _ => self.nearest_in::<1024>(scale, x),
        }
    }

    /// The same in a room of N distances.
    #[inline(always)]
    fn nearest_in<const N: usize>(&self, scale: u32, x: &[u8]) -> u32
        requires room { (length self.now ≤ N) × (N ≤ 1024) }
        requires scale { scale ≤ 8 }
        requires sizes { (w : ℕ) → w < length self.now → length (slice_index_or self.now w []) ≡ length x.now }
        ensures value { result ≡ nearest scale self.now x.now }
        ensures within { result < length self.now }
    {
        let mut room = [0; N];
        let found = &mut room[..self.count()];
        self.distances(scale, x, found);
        first_least(found) as u32
    }

    /// The number of the nearest word to what is left of x, as in `rest_distances`: the least number among ties.
    #[inline]
    pub fn rest_nearest(&self, scale: u32, x: &[u8], coarse: &[u16]) -> u32
        requires scale { scale ≤ 8 }
        requires short { length x.now ≤ 128 }
        requires coarse { length coarse.now ≡ length x.now }
        requires sizes { (w : ℕ) → w < length self.now → length (slice_index_or self.now w []) ≡ length x.now }
        ensures value { result ≡ first_least (map (rest_dist scale x.now coarse.now) self.now) }
        ensures within { result < length self.now }
    {
        match self.count() {
            0..=16 => self.rest_nearest_in::<16>(scale, x, coarse),
            17..=256 => self.rest_nearest_in::<256>(scale, x, coarse),
            _ => self.rest_nearest_in::<1024>(scale, x, coarse),
        }
    }

    /// The same in a room of N distances.
    #[inline(always)]
    fn rest_nearest_in<const N: usize>(&self, scale: u32, x: &[u8], coarse: &[u16]) -> u32
        requires room { (length self.now ≤ N) × (N ≤ 1024) }
        requires scale { scale ≤ 8 }
        requires short { length x.now ≤ 128 }
        requires coarse { length coarse.now ≡ length x.now }
        requires sizes { (w : ℕ) → w < length self.now → length (slice_index_or self.now w []) ≡ length x.now }
        ensures value { result ≡ first_least (map (rest_dist scale x.now coarse.now) self.now) }
        ensures within { result < length self.now }
    {
        let mut room = [0; N];
        let found = &mut room[..self.count()];
        self.rest_distances(scale, x, coarse, found);
        first_least(found) as u32
    }
}
