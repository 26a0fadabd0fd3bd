//! A generated book, rows and queries.
ghost use Rattle.std.specs.Prelude.{◌≡◌, ◌+◌, ◌<◌, ◌≤◌, ◌^◌, ◌++◌, length, take, drop, OnOk, IfOk};
ghost use Rattle.play_script.specs.Stream.{stream, sample_book, sample_row, sample_query};

use adc_ports::Memory;
use std::alloc::{AllocError, Global};
use std::marker::Model;

/// The fields of the book's file before its words.
const HEAD: [u8; 66] = [
    b'A', b'D', b'C', b'B', b'O', b'O', b'K', b'1', 128, 0, 64, 0, 0, 1, 0, 1, 2, 8, 5, 0, 5, 0, 5,
    0, 5, 0, 5, 0, 5, 0, 5, 0, 5, 0, 5, 0, 5, 0, 5, 0, 5, 0, 5, 0, 5, 0, 5, 0, 5, 0, 6, 0, 6, 0, 6,
    0, 6, 0, 6, 0, 6, 0, 6, 0, 6, 0,
];

/// The bytes of the book's words.
const WORDS: usize = 38_896;

/// The bytes of a row or a query.
const LENGTH: usize = 128;

/// The number of queries.
const QUERIES: usize = 16;

/// A book, rows and queries whose bytes follow from a number: the stream of a linear congruential
/// generator.
#[derive(Drop)]
pub struct Sample {
    start: u32,
    rows: u32,
    bytes: Vec<u8>,
}

impl Model for Sample {
    ghost use Rattle.play_script.specs.Stream.{Drawn, IsDrawn};

    ghost Value = { Drawn };

    ghost view = { λ sample. record { start = sample.start; rows = sample.rows } };

    ghost invariant = { λ sample. IsDrawn (record { start = sample.start; rows = sample.rows }) sample.bytes.items };
}

/// The 128 bytes from there on.
fn stretch(bytes: &[u8], at: usize) -> &[u8]
    requires { at + 128 ≤ length bytes.now }
    ensures bytes { result.now ≡ take 128 (drop at bytes.now) }
    ensures len { length result.now ≡ 128 }
{
    &bytes[at..at + LENGTH]
}

/// Adds bytes of the stream that begins with a number.
fn draw(bytes: &mut Vec<u8>, count: usize, start: u32) -> Result<(), AllocError>
    ensures { OnOk result (bytes.new.items ≡ bytes.old.items ++ stream count start) }
{
    let mut x = u64::from(start);
    for _ in 0..count {
        x = (1_103_515_245 * x + 12_345) % 2_147_483_648;
        bytes.push((x / 8_388_608) as u8)?;
    }
    Ok(())
}

#[tactic(auto, unfolding(crate::specs::Stream::sample_head))]
fn drawn(alloc: Global, start: u32, rows: u32) -> Result<Sample, AllocError>
    ensures { IfOk result (λ sample. sample ≡ record { start = start; rows = rows }) }
{
    let count = WORDS + LENGTH * (rows as usize + QUERIES);
    let mut bytes = Vec::with_capacity(alloc, HEAD.len() + count)?;
    bytes.extend_from_slice(&HEAD)?;
    draw(&mut bytes, count, start)?;
    Ok(Sample { start, rows, bytes })
}

/// The sample that a number gives, with as many rows.
pub fn generate(alloc: Global, start: u32, rows: u32) -> Result<Sample, Memory>
    ensures { IfOk result (λ sample. sample ≡ record { start = start; rows = rows }) }
{
    drawn(alloc, start, rows).map_err(|_| Memory)
}

impl Sample {
    /// The bytes of the book's file.
    pub fn book(&self) -> &[u8]
        ensures bytes { result.now ≡ sample_book self.now }
        ensures len { length result.now ≡ 38962 }
    {
        &self.bytes[..HEAD.len() + WORDS]
    }

    fn vector(&self, n: usize) -> &[u8]
        requires there { n < self.now.rows + 16 }
        requires small { n < 2 ^ 33 }
        ensures bytes { result.now ≡ sample_row self.now n }
        ensures len { length result.now ≡ 128 }
    {
        stretch(&self.bytes, HEAD.len() + WORDS + LENGTH * n)
    }

    /// The 128 bytes of row number n, from 0 on.
    pub fn row(&self, n: u32) -> &[u8]
        requires { n < self.now.rows }
        ensures bytes { result.now ≡ sample_row self.now n }
        ensures len { length result.now ≡ 128 }
    {
        self.vector(n as usize)
    }

    /// The 128 bytes of query number n, from 0 on.
    pub fn query(&self, n: u32) -> &[u8]
        requires { n < 16 }
        ensures bytes { result.now ≡ sample_query self.now n }
        ensures len { length result.now ≡ 128 }
    {
        self.vector(self.rows as usize + n as usize)
    }
}
