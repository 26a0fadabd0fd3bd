//! Reading an index and writing it again.
ghost use Rattle.std.specs.Prelude.{◌≡◌, ◌*◌, IfSome};
ghost use Rattle.index_file.specs.View.{IsFresh, book_of, store_of};

use adc_ports::SteadyShelf;
use index_file::{AnyIndex, Index, decode, write};
use shape_core::Fields;
use std::alloc::Global;

/// An index of words of four fields.
pub type Small = Index<Fields<4, 4, 4, 4>>;

/// The index of the file `read`, if it is one of words of four fields.
pub fn read(alloc: Global, shelf: &mut SteadyShelf) -> Option<Small>
    ensures g { IfSome result (λ index. index.store.g ≡ index.book.g) }
    ensures cells { IfSome result (λ index. index.store.cells ≡ index.book.k0 * index.book.k1) }
{
    match decode(alloc, shelf, "read") {
        Ok(index) => small_of(index),
        Err(_) => None,
    }
}

/// The index itself, if it is one of words of four fields.
fn small_of(index: AnyIndex) -> Option<Small>
    requires { IsFresh (book_of index) (store_of index) }
    ensures g { IfSome result (λ index. index.store.g ≡ index.book.g) }
    ensures cells { IfSome result (λ index. index.store.cells ≡ index.book.k0 * index.book.k1) }
{
    match index {
        AnyIndex::F4444(index) => Some(index),
        _ => None,
    }
}

/// Writes the file `written` of an index, and says whether it was written whole.
pub fn write_again(alloc: Global, shelf: &mut SteadyShelf, index: &Small) -> bool
    requires g { index.now.store.g ≡ index.now.book.g }
    requires cells { index.now.store.cells ≡ index.now.book.k0 * index.now.book.k1 }
{
    write(alloc, &index.book, &index.store, shelf, "written").is_ok()
}

/// A checksum of what was read: how many rows are live and how many cells have one.
pub fn sum_of(index: &Small) -> u64 {
    u64::from(index.store.live())
        .wrapping_mul(65_537)
        .wrapping_add(u64::from(index.store.used()))
}
