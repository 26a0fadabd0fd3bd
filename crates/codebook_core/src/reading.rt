//! Reading a book of any shape.

ghost use Rattle.std.specs.Prelude.{◌≡◌, ℕ, ◌+◌, ◌-◌, ◌*◌, ◌^◌, ◌≤◌, ◌<◌, length, sum, drop, ◌++◌, List, IfOk, slice_index_or};
ghost use Rattle.codebook_core.specs.Gives.{Gives};
ghost use Rattle.codebook_core.specs.Front.{IsFront, AreWidths};
ghost use Rattle.codebook_core.specs.Spelling.{component_width, book_bytes};
ghost use Rattle.codebook_core.specs.Starts.{sub_sizes};
ghost use Rattle.codebook_core.specs.View.{rows_of, subs_of, view_of, IsLaidOut, IsKept};
ghost use Rattle.codebook_core.specs.Reading.{words_at, subs_at, body_at, book_at, book_outcome};
ghost use Rattle.codebook_core.specs.Any.{view_any, view_any_at};
ghost use Rattle.book_model.specs.Book.{Book, IsGood};

use crate::book::Codebook;
use crate::columns::columns_of;
use crate::components::components;
use crate::error::BookError;
use crate::fields::{Front, groups, lengths, read_front, scale};
use crate::parts::{Parts, sizes, starts_of};
use adc_ports::What;
use shape_core::{Fields, Shape};
use std::alloc::Global;

/// A good book of one of the four shapes.
#[derive(Drop)]
pub enum AnyBook {
    /// Four fields of 4 bits.
    F4444(Codebook<Fields<4, 4, 4, 4>>),
    /// Three fields of 5 bits.
    F555(Codebook<Fields<5, 5, 5, 0>>),
    /// Two fields of 6 bits and one of 4.
    F664(Codebook<Fields<6, 6, 4, 0>>),
    /// Two fields of 8 bits.
    F88(Codebook<Fields<8, 8, 0, 0>>),
}

/// Reads a book file of either version, of at most 4,194,304 bytes. Any good book's spelling is within that.
///
/// # Errors
/// `Malformed` and `Limit` at the first faulty field, and `Memory`.
#[tactic(auto, using(crate::proofs::Decoded::is_found, crate::proofs::Decoded::is_read))]
pub fn decode(alloc: Global, bytes: &[u8]) -> Result<AnyBook, BookError>
    // What is read is good, and spelled so.
    ensures found { IfOk result (λ book. IsGood (view_any book) × (bytes.now ≡ book_bytes (view_any book))) }
    // A good book that is spelled so is read, unless memory runs out.
    ensures only { (book : Book) → IsGood book → bytes.now ≡ book_bytes book
        → Gives view_any result (Ok book) }
    // Which fault it is.
    ensures exact { Gives view_any result (book_outcome bytes.now) }
{
    exact(alloc, bytes)
}

/// What `decode` answers, by reading from the front.
#[tactic(auto, unfolding(crate::specs::Reading::book_outcome))]
fn exact(alloc: Global, bytes: &[u8]) -> Result<AnyBook, BookError>
    ensures { Gives view_any result (book_outcome bytes.now) }
{
    if bytes.len() > 4_194_304 {
        return Err(BookError::Limit {
            what: What::Bytes,
            value: bytes.len() as u64,
        });
    }
    let (book, at) = exact_at(alloc, bytes, 0)?;
    if at != bytes.len() {
        return Err(BookError::Malformed { at: at as u64 });
    }
    Ok(book)
}

/// Reads the book that begins at a place of some bytes, and answers where it ends. Bytes may stand behind it.
///
/// # Errors
/// `Malformed` and `Limit` at the first faulty field, and `Memory`.
#[tactic(auto, using(crate::proofs::Decoded::is_found_at, crate::proofs::Decoded::is_read_at))]
pub fn decode_at(alloc: Global, bytes: &[u8], at: usize) -> Result<(AnyBook, usize), BookError>
    requires { at ≤ length bytes.now }
    ensures within { IfOk result (λ x. x.1 ≤ length bytes.now) }
    // What is read is good, and spelled there.
    ensures found { IfOk result (λ x. IsGood (view_any x.0)
        × (drop at bytes.now ≡ book_bytes (view_any x.0) ++ drop x.1 bytes.now)) }
    // A good book that is spelled there is read, unless memory runs out.
    ensures only { (book : Book) (rest : List ℕ) → IsGood book → drop at bytes.now ≡ book_bytes book ++ rest
        → Gives view_any_at result (Ok (book, at + length (book_bytes book))) }
    // Which fault it is.
    ensures exact { Gives view_any_at result (book_at bytes.now at) }
{
    exact_at(alloc, bytes, at)
}

/// What `decode_at` answers, by reading from the front.
#[tactic(auto, unfolding(crate::specs::Reading::book_at))]
fn exact_at(alloc: Global, bytes: &[u8], at: usize) -> Result<(AnyBook, usize), BookError>
    requires { at ≤ length bytes.now }
    ensures within { IfOk result (λ x. x.1 ≤ length bytes.now) }
    ensures exact { Gives view_any_at result (book_at bytes.now at) }
{
    let (front, at) = read_front(bytes, at)?;
    match front.shape {
        0 => {
            let (book, at) = book(alloc, bytes, at, front)?;
            Ok((AnyBook::F4444(book), at))
        }
        1 => {
            let (book, at) = book(alloc, bytes, at, front)?;
            Ok((AnyBook::F555(book), at))
        }
        2 => {
            let (book, at) = book(alloc, bytes, at, front)?;
            Ok((AnyBook::F664(book), at))
        }
        _ => {
            let (book, at) = book(alloc, bytes, at, front)?;
            Ok((AnyBook::F88(book), at))
        }
    }
}

/// The book whose front ends there, where its shape is this one, and where it ends.
fn book<S: Shape>(
    alloc: Global,
    bytes: &[u8],
    at: usize,
    front: Front,
) -> Result<(Codebook<S>, usize), BookError>
    requires at { at ≤ length bytes.now }
    requires front { IsFront front }
    ensures within { IfOk result (λ x. x.1 ≤ length bytes.now) }
    ensures value { Gives (λ x. x) result (body_at front S.widths bytes.now at) }
{
    let table = S::WIDTHS;
    let widths = &table[..S::FIELDS];
    let (parts, at) = parts(alloc, bytes, at, front, widths)?;
    let columns = columns_of(alloc, widths, &parts)?;
    Ok((Codebook::new(parts, columns), at))
}

/// The parts of a book whose front ends there, where the fields have these widths.
fn parts(
    alloc: Global,
    bytes: &[u8],
    at: usize,
    front: Front,
    widths: &[u32],
) -> Result<(Parts, usize), BookError>
    requires at { at ≤ length bytes.now }
    requires front { IsFront front }
    requires widths { AreWidths widths.now }
    ensures within { IfOk result (λ x. x.1 ≤ length bytes.now) }
    ensures kept { IfOk result (λ x. IsKept widths.now x.0) }
    ensures value { Gives (λ x. (view_of widths.now x.0, x.1)) result (body_at front widths.now bytes.now at) }
{
    body(alloc, bytes, at, front, widths)
}

/// The same, before it is known that the book is good.
#[tactic(auto, unfolding(crate::specs::Reading::body_at, crate::specs::View::view_of), using(crate::proofs::Rows::sizes_le))]
fn body(
    alloc: Global,
    bytes: &[u8],
    at: usize,
    front: Front,
    widths: &[u32],
) -> Result<(Parts, usize), BookError>
    requires at { at ≤ length bytes.now }
    requires front { IsFront front }
    requires widths { AreWidths widths.now }
    ensures within { IfOk result (λ x. x.1 ≤ length bytes.now) }
    ensures laid { IfOk result (λ x. IsLaidOut widths.now x.0) }
    ensures value { Gives (λ x. (view_of widths.now x.0, x.1)) result (body_at front widths.now bytes.now at) }
{
    let (g, at) = groups(bytes, at, front.d, widths.len())?;
    let (scale, at) = scale(bytes, at, front.version)?;
    let count = u32::from(g) * (widths.len() as u32);
    let (lengths, at) = lengths(alloc, bytes, at, count, front.d)?;
    let starts = starts_of(alloc, &lengths)?;
    let sizes = sizes(alloc, widths, &lengths)?;
    let places = starts_of(alloc, &sizes)?;
    let (coarse0, at) = coarse(alloc, bytes, at, front.version, front.k0, front.h)?;
    let (coarse1, at) = coarse(alloc, bytes, at, front.version, front.k1, front.d - front.h)?;
    let (words, at) = sub_words(alloc, bytes, at, front.version, widths, &lengths, &sizes)?;
    let parts = Parts {
        front,
        scale,
        g,
        lengths,
        starts,
        places,
        coarse0,
        coarse1,
        words,
    };
    Ok((parts, at))
}

/// The components of n coarse words of one size.
#[tactic(auto, using(crate::proofs::Flat::made_given, crate::proofs::Flat::words_flat))]
fn coarse(
    alloc: Global,
    bytes: &[u8],
    at: usize,
    version: u8,
    n: u16,
    size: u16,
) -> Result<(Vec<u16>, usize), BookError>
    requires { at ≤ length bytes.now }
    ensures within { IfOk result (λ x. x.1 ≤ length bytes.now) }
    ensures len { IfOk result (λ x. length x.0.items ≡ n * size) }
    ensures value { Gives (λ x. (rows_of n size x.0.items, x.1)) result
        (words_at (component_width version) n size bytes.now at) }
{
    components(alloc, bytes, at, version, n as usize * size as usize)
}

/// The components of the words of all sub-quantizers, which have these sizes.
fn sub_words(
    alloc: Global,
    bytes: &[u8],
    at: usize,
    version: u8,
    widths: &[u32],
    lengths: &[u32],
    sizes: &[u32],
) -> Result<(Vec<u16>, usize), BookError>
    requires at { at ≤ length bytes.now }
    requires sizes { sizes.now ≡ sub_sizes widths.now 0 lengths.now }
    requires small { sum sizes.now < 2 ^ 32 }
    ensures within { IfOk result (λ x. x.1 ≤ length bytes.now) }
    ensures len { IfOk result (λ x. length x.0.items ≡ sum (sub_sizes widths.now 0 lengths.now)) }
    ensures value { Gives (λ x. (subs_of widths.now 0 lengths.now x.0.items, x.1)) result
        (subs_at (component_width version) widths.now 0 lengths.now bytes.now at) }
{
    components(alloc, bytes, at, version, total(sizes) as usize)
}

/// The sum of sizes.
fn total(sizes: &[u32]) -> u32
    requires { sum sizes.now < 2 ^ 32 }
    ensures { result ≡ sum sizes.now }
{
    sizes.iter().sum()
}
