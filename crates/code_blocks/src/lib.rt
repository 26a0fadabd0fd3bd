//! Blocks of 32 codes that are kept transposed, as the lanes of a scan read them.
#![tactic(auto)]

mod codes;

ghost use Rattle.std.specs.Prelude.{◌≡◌, ◌<◌, ◌≤◌, ℕ, List, [], length, replicate, slice_index_or, slice_set, IfOk};
ghost use Rattle.shape_core.specs.Word.{AreCodeWords};
ghost use Rattle.code_blocks.specs.Codes.{code_at, codes_of, zero_codes, word_count, AreLanes, PutsCode};

use adc_ports::Memory;
pub use codes::{BlockRef, Codes};
use shape_core::Shape;
use std::alloc::{AllocError, Global};
use std::marker::{Model, PhantomData};

/// How many codes a block has.
pub const CODES: usize = 32;

/// 32 codes of as many words each. Contracts see it as the list of its codes.
#[derive(Drop)]
pub struct Block<S: Shape> {
    lanes: Vec<[u16; 32]>,
    shape: PhantomData<S>,
}

impl<S: Shape> Model for Block<S> {
    ghost use Rattle.std.specs.Prelude.{ℕ, List};
    ghost use Rattle.code_blocks.specs.Codes.{codes_of, AreLanes};

    ghost Value = { List (List ℕ) };

    ghost view = { λ block. codes_of block.lanes.items };

    ghost invariant = { λ block. AreLanes S.widths block.lanes.items };
}

impl<S: Shape> Block<S> {
    /// 32 codes of g words, all 0.
    #[tactic(auto, using(crate::proofs::Lanes::zero_lanes))]
    pub fn new(alloc: Global, g: u32) -> Result<Block<S>, Memory>
        ensures codes { IfOk result (λ block. block ≡ zero_codes g) }
        ensures count { IfOk result (λ block. word_count block ≡ g) }
    {
        let lanes = zeros(alloc, g).map_err(|_| Memory)?;
        Ok(Block {
            lanes,
            shape: PhantomData,
        })
    }

    /// Puts a code at a slot.
    pub fn set(&mut self, slot: u32, code: &[u16])
        requires slot { slot < 32 }
        requires words { AreCodeWords S.widths (word_count self.old) code.now }
        ensures codes { self.new ≡ slice_set self.old slot code.now }
        ensures count { word_count self.new ≡ word_count self.old }
    {
        put_code(&mut self.lanes, slot as usize, code);
    }

    /// Copies the code of a slot.
    #[tactic(auto, using(crate::proofs::Lanes::shown_lanes))]
    pub fn get(&self, slot: u32, into: &mut [u16])
        requires slot { slot < 32 }
        requires words { length into.old ≡ word_count self.now }
        ensures { into.new ≡ slice_index_or self.now slot [] }
    {
        copy_code(&self.lanes, slot as usize, into);
    }

    /// The codes transposed: place w holds word w of all 32 codes.
    #[tactic(auto, using(crate::proofs::Lanes::shown_lanes))]
    pub fn words(&self) -> &[[u16; 32]]
        ensures codes { codes_of result.now ≡ self.now }
        ensures count { length result.now ≡ word_count self.now }
        ensures lanes { AreLanes S.widths result.now }
    {
        &self.lanes
    }
}

fn zeros(alloc: Global, g: u32) -> Result<Vec<[u16; 32]>, AllocError>
    ensures { IfOk result (λ lanes. lanes.items ≡ replicate g (replicate 32 0)) }
{
    let mut lanes = Vec::with_capacity(alloc, g as usize)?;
    for i in 0..g {
        lanes.push([0; 32])?;
    }
    Ok(lanes)
}

fn put_code(lanes: &mut [[u16; 32]], slot: usize, code: &[u16])
    requires slot { slot < 32 }
    requires words { length code.now ≡ length lanes.old }
    ensures { PutsCode lanes.old lanes.new slot code.now }
{
    for (w, word) in code.iter().enumerate() {
        let lane = &mut lanes[w];
        lane[slot] = *word;
    }
}

fn copy_code(lanes: &[[u16; 32]], slot: usize, into: &mut [u16])
    requires slot { slot < 32 }
    requires words { length into.old ≡ length lanes.now }
    ensures { into.new ≡ code_at lanes.now slot }
{
    for (w, lane) in lanes.iter().enumerate() {
        into[w] = lane[slot];
    }
}
