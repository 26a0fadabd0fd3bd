//! The two ranked lists, in a room that is taken once.
ghost use Rattle.std.specs.Prelude.{◌≡◌, ℕ, ◌+◌, ◌*◌, ◌^◌, ◌<◌, ◌≤◌, [], length, map, slice_index, slice_index_or, vec_capacity, EachIndex, IfOk};
ghost use Rattle.book_model.specs.Visit.{cells};
ghost use Rattle.book_model.specs.Sums.{numbers_below};
ghost use Rattle.book_model.specs.Distance.{dist};
ghost use Rattle.coarse_rank.specs.Ranked.{Ranked, IsFilled, ranked, rank_of, ranks_of, cell_key, cells_of};

use crate::PairMeter;
use adc_ports::Memory;
use codebook_core::Codebook;
use shape_core::Shape;
use std::alloc::Global;
use std::marker::Model;
use word_columns::WordColumns;

/// The coarse words of both parts by their distance to a query, the nearest first. The distances are private: `sum`
/// alone gives them.
#[derive(Drop)]
pub struct Ranks {
    k0: u32,
    k1: u32,
    /// The keys of the words of part 0: a squared distance times 1024 and the word's number, which sort as the pair.
    words0: Vec<u64>,
    words1: Vec<u64>,
}

impl Model for Ranks {
    ghost use Rattle.book_model.specs.Sums.{numbers_below};
    ghost use Rattle.book_model.specs.Distance.{dist};
    ghost use Rattle.coarse_rank.specs.Ranked.{Ranked};

    ghost Value = { Ranked };

    ghost use Rattle.coarse_rank.specs.View.{view_ranks, AreRanks};

    ghost view = { view_ranks };

    ghost invariant = { AreRanks };
}

impl Ranks {
    /// Room for `k0` words of part 0 and `k1` words of part 1. It alone takes memory.
    pub fn with_room(alloc: Global, k0: u32, k1: u32) -> Result<Ranks, Memory>
        requires some { (1 ≤ k0) × (1 ≤ k1) }
        requires most { (k0 ≤ 1024) × (k1 ≤ 1024) }
        ensures { IfOk result (λ ranks. ranks ≡ record { k0 = k0; k1 = k1; words0 = []; words1 = [] }) }
    {
        let Ok(words0) = Vec::with_capacity(alloc, k0 as usize) else {
            return Err(Memory);
        };
        let Ok(words1) = Vec::with_capacity(alloc, k1 as usize) else {
            return Err(Memory);
        };
        Ok(Ranks {
            k0,
            k1,
            words0,
            words1,
        })
    }

    /// Ranks the words of both parts of the book by their distance to the query. It takes no memory.
    pub fn fill<S: Shape>(&mut self, book: &Codebook<S>, query: &[u8])
        requires query { length query.now ≡ book.now.d }
        requires room { (self.old.k0 ≡ book.now.k0) × (self.old.k1 ≡ book.now.k1) }
        ensures ranks { self.new ≡ ranks_of book.now query.now }
        ensures filled { IsFilled self.new }
        ensures room_stays { (self.new.k0 ≡ self.old.k0) × (self.new.k1 ≡ self.old.k1) }
        ensures order { cells_of self.new ≡ cells book.now query.now }
    {
        let h = book.h() as usize;
        let d = book.d() as usize;
        let scale = book.scale();
        rank(&mut self.words0, scale, book.coarse0_columns(), &query[..h]);
        rank(
            &mut self.words1,
            scale,
            book.coarse1_columns(),
            &query[h..d],
        );
    }

    /// The number of words of part 0.
    pub fn k0(&self) -> u32
        ensures { result ≡ self.now.k0 }
    {
        self.k0
    }

    /// The number of words of part 1.
    pub fn k1(&self) -> u32
        ensures { result ≡ self.now.k1 }
    {
        self.k1
    }

    /// The sum of the squared distances of the a-th and the b-th word, counted from 0, which raises the meter by one.
    pub fn sum(&self, a: u32, b: u32, pairs: &mut PairMeter) -> u64
        requires a_there { a < length self.now.words0 }
        requires b_there { b < length self.now.words1 }
        requires room { pairs.old ≤ 2 ^ 63 }
        ensures value { result ≡ (cell_key self.now.k1 (slice_index_or self.now.words0 a (0, 0)) (slice_index_or self.now.words1 b (0, 0))).0 }
        ensures raised { pairs.new ≡ pairs.old + 1 }
    {
        pairs.raise();
        distance_of(self.words0[a as usize]) + distance_of(self.words1[b as usize])
    }

    /// The number of the cell of the a-th and the b-th word.
    pub fn cell(&self, a: u32, b: u32) -> u32
        requires a_there { a < length self.now.words0 }
        requires b_there { b < length self.now.words1 }
        ensures { result ≡ (cell_key self.now.k1 (slice_index_or self.now.words0 a (0, 0)) (slice_index_or self.now.words1 b (0, 0))).1 }
    {
        number_of(self.words0[a as usize]) * self.k1 + number_of(self.words1[b as usize])
    }
}

/// The distance of a key.
#[inline(always)]
fn distance_of(key: u64) -> u64
    ensures value { result ≡ (rank_of key).0 }
    ensures small { result < 2 ^ 54 }
{
    key / 1024
}

/// The number of a key.
#[inline(always)]
fn number_of(key: u64) -> u32
    ensures value { result ≡ (rank_of key).1 }
    ensures small { result < 1024 }
{
    (key % 1024) as u32
}

/// Ranks words by their distance to x.
fn rank(into: &mut Vec<u64>, scale: u32, words: &WordColumns, x: &[u8])
    requires scale { scale ≤ 8 }
    requires sizes { (w : ℕ) → w < length words.now → length (slice_index_or words.now w []) ≡ length x.now }
    requires room { length words.now ≤ vec_capacity into.old }
    ensures ranked { map rank_of into.new.items ≡ ranked scale words.now x.now }
    ensures room { vec_capacity into.old ≤ vec_capacity into.new }
{
    into.clear();
    let _ = into.resize(words.count(), 0);
    keys(into, scale, words, x);
    into.sort_unstable();
}

/// Writes the key of each word.
fn keys(into: &mut [u64], scale: u32, words: &WordColumns, x: &[u8])
    requires scale { scale ≤ 8 }
    requires sizes { (w : ℕ) → w < length words.now → length (slice_index_or words.now w []) ≡ length x.now }
    requires room { length into.old ≡ length words.now }
    ensures { map rank_of into.new ≡ map (λ i. (dist scale x.now (slice_index_or words.now i []), i)) (numbers_below (length words.now)) }
{
    let _count = words.count();
    words.distances(scale, x, into);
    number_each(into);
}

/// Makes each distance the key of its place.
fn number_each(distances: &mut [u64])
    requires few { length distances.old ≤ 1024 }
    requires small { (w : ℕ) → slice_index distances.old w < 2 ^ 54 }
    ensures { EachIndex distances.new (λ w. slice_index distances.new w ≡ slice_index distances.old w * 1024 + w) }
{
    for (w, distance) in distances.iter_mut().enumerate() {
        *distance = *distance * 1024 + w as u64;
    }
}
