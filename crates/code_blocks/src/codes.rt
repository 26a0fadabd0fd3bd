//! Codes in blocks of 32 that lie one after another in one stretch of words.

ghost use Rattle.std.specs.Prelude.{◌≡◌, ◌*◌, ◌+◌, ◌/◌, ◌<◌, ◌≤◌, ℕ, List, [], ◌++◌, length, take, drop, replicate, slice_index_or, slice_set, OnOk, OnErr};
ghost use Rattle.code_blocks.specs.Codes.{AreCodes, AreLanes, IsBlock, PutsIn, codes_of, word_count};
ghost use Rattle.shape_core.specs.Word.{AreCodeWords};

use crate::{CODES, copy_code};
use adc_ports::Memory;
use shape_core::Shape;
use std::alloc::Global;
use std::marker::{Model, PhantomData};

/// Codes of g words each in blocks of 32. The lanes of a block lie one after another, and so do the blocks, in one stretch
/// of words. Contracts see g and the list of the codes of all blocks.
#[derive(Drop)]
pub struct Codes {
    lanes: Vec<[u16; 32]>,
    g: usize,
    blocks: usize,
}

impl Model for Codes {
    ghost use Rattle.code_blocks.specs.Codes.{Coded, IsStretch, codes_in};

    ghost Value = { Coded };

    ghost view = { λ s. record { g = s.g; codes = codes_in s.g s.blocks s.lanes.items } };

    ghost invariant = { λ s. IsStretch s.g s.blocks s.lanes.items };
}

impl Codes {
    /// No blocks, for codes of g words.
    #[tactic(auto, unfolding(crate::specs::Codes::codes_in))]
    pub fn new(alloc: Global, g: u32) -> Codes
        requires { (1 ≤ g) × (g ≤ 32) }
        ensures { result ≡ record { g = g; codes = [] } }
    {
        Codes {
            lanes: Vec::new(alloc),
            g: g as usize,
            blocks: 0,
        }
    }

    /// The words of a code.
    pub fn g(&self) -> usize
        ensures g { result ≡ self.now.g }
        ensures few { result ≤ 32 }
    {
        self.g
    }

    /// Makes a place for the code after those in use. Where memory runs out, the codes stay.
    pub fn reserve(&mut self, at: usize) -> Result<(), Memory>
        requires { at ≤ length self.old.codes }
        ensures room { OnOk result (at < length self.new.codes) }
        ensures front { take (length self.old.codes) self.new.codes ≡ self.old.codes }
        ensures longer { length self.old.codes ≤ length self.new.codes }
        ensures few { length self.new.codes ≤ length self.old.codes + 32 }
        ensures enough { at < length self.old.codes → self.new ≡ self.old }
        ensures g { self.new.g ≡ self.old.g }
        ensures words { (widths : List ℕ) → AreCodes widths self.old.g self.old.codes → AreCodes widths self.old.g self.new.codes }
    {
        if at / CODES < self.blocks {
            return Ok(());
        }
        add_zeros(&mut self.lanes, self.g)?;
        self.blocks += 1;
        Ok(())
    }

    /// Puts a code in its place.
    pub fn set(&mut self, at: usize, code: &[u16])
        requires at { at < length self.old.codes }
        requires words { length code.now ≡ self.old.g }
        ensures { self.new ≡ record self.old { codes = slice_set self.old.codes at code.now } }
    {
        put_in(&mut self.lanes, at / CODES * self.g, at % CODES, code);
    }

    /// Copies a code.
    pub fn get(&self, at: usize, into: &mut [u16])
        requires at { at < length self.now.codes }
        requires words { length into.old ≡ self.now.g }
        ensures { into.new ≡ slice_index_or self.now.codes at [] }
    {
        let first = at / CODES * self.g;
        copy_code(&self.lanes[first..first + self.g], at % CODES, into);
    }

    /// Lends the n-th block.
    pub fn block<S: Shape>(&self, n: usize) -> BlockRef<'_, S>
        requires there { 32 * n < length self.now.codes }
        requires words { AreCodes S.widths self.now.g self.now.codes }
        ensures codes { result ≡ take 32 (drop (32 * n) self.now.codes) }
        ensures words { IsBlock S.widths self.now.g result }
    {
        let first = n * self.g;
        BlockRef {
            lanes: &self.lanes[first..first + self.g],
            shape: PhantomData,
        }
    }

    /// Lets go of the blocks past the first n codes.
    pub fn truncate(&mut self, n: usize)
        requires { n ≤ length self.old.codes }
        ensures enough { n ≤ length self.new.codes }
        ensures few { length self.new.codes < n + 32 }
        ensures front { take n self.new.codes ≡ take n self.old.codes }
        ensures g { self.new.g ≡ self.old.g }
        ensures words { (widths : List ℕ) → AreCodes widths self.old.g self.old.codes → AreCodes widths self.old.g self.new.codes }
    {
        let blocks = n.div_ceil(CODES);
        self.lanes.truncate(blocks * self.g);
        self.blocks = blocks;
    }
}

/// Adds lanes of zeros, as many as g. Where memory runs out, the lanes stay. Room is made for an eighth more.
fn add_zeros(lanes: &mut Vec<[u16; 32]>, g: usize) -> Result<(), Memory>
    requires { g ≤ 32 }
    ensures ok { OnOk result (lanes.new.items ≡ lanes.old.items ++ replicate g (replicate 32 0)) }
    ensures err { OnErr result (lanes.new.items ≡ lanes.old.items) }
{
    let len = lanes.len();
    if lanes.capacity() < len + g && lanes.reserve_exact(g + len / 8).is_err() {
        return Err(Memory);
    }
    match lanes.resize(len + g, [0; 32]) {
        Ok(()) => Ok(()),
        Err(_) => Err(Memory),
    }
}

/// Puts a code at a slot of the block that begins with a lane.
fn put_in(lanes: &mut [[u16; 32]], first: usize, slot: usize, code: &[u16])
    requires slot { slot < 32 }
    requires room { first + length code.now ≤ length lanes.old }
    ensures { PutsIn lanes.old lanes.new first slot code.now }
{
    for (w, word) in code.iter().enumerate() {
        let lane = &mut lanes[first + w];
        lane[slot] = *word;
    }
}

/// A block of 32 codes in a stretch. Contracts see it as the list of its codes.
#[derive(Drop)]
pub struct BlockRef<'a, S: Shape> {
    lanes: &'a [[u16; 32]],
    shape: PhantomData<S>,
}

impl<'a, S: Shape> Model for BlockRef<'a, S> {
    ghost use Rattle.std.specs.Prelude.{ℕ, List};
    ghost use Rattle.code_blocks.specs.Codes.{codes_of, AreLanes};

    ghost Value = { List (List ℕ) };

    ghost view = { λ block. codes_of block.lanes.now };

    ghost invariant = { λ block. AreLanes S.widths block.lanes.now };
}

impl<'a, S: Shape> BlockRef<'a, S> {
    /// Copies the code of a slot.
    #[tactic(auto, using(crate::proofs::Lanes::shown_lanes))]
    pub fn get(&self, slot: u32, into: &mut [u16])
        requires slot { slot < 32 }
        requires words { length into.old ≡ word_count self.now }
        ensures { into.new ≡ slice_index_or self.now slot [] }
    {
        copy_code(self.lanes, slot as usize, into);
    }

    /// The codes transposed: place w holds word w of all 32 codes.
    #[tactic(auto, using(crate::proofs::Lanes::shown_lanes))]
    pub fn words(&self) -> &'a [[u16; 32]]
        ensures codes { codes_of result.now ≡ self.now }
        ensures count { length result.now ≡ word_count self.now }
        ensures lanes { AreLanes S.widths result.now }
    {
        self.lanes
    }
}
