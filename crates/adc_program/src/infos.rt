//! The numbers of an index.
ghost use Rattle.std.specs.Prelude.{◌≡◌, ◌*◌, ◌<◌, [], ◌∷◌, slice_index_or};
ghost use Rattle.book_model.specs.Book.{shapes};
ghost use Rattle.cell_store.specs.State.{live_rows};
ghost use Rattle.index_file.specs.View.{book_of, store_of, view_index, IsFresh};
ghost use Rattle.adc_program.specs.Infos.{scale_of, info_of, info_lines};
ghost use Rattle.adc_program.specs.Steps.{Puts, Plays};

use crate::halts::Halted;
use crate::lines::write_line;
use adc_inputs::read_index;
use adc_ports::{Shelf, Sink};
use codebook_core::Codebook;
use index_file::{AnyIndex, Index};
use play_script::info_line;
use shape_core::Shape;
use std::alloc::Global;

/// The scale of a book of version 2.
fn scale_of<S: Shape>(book: &Codebook<S>) -> Option<u32>
    ensures { result ≡ scale_of book.now }
{
    if book.version() == 1 {
        None
    } else {
        Some(book.scale())
    }
}

/// Writes the line of an index whose shape has this number.
fn write_index<S: Shape, K: Sink>(index: Index<S>, shape: u8, out: &mut K) -> Result<(), Halted>
    requires number { shape < 4 }
    requires shape { slice_index_or shapes shape [] ≡ S.widths }
    requires cells { index.store.cells ≡ index.book.k0 * index.book.k1 }
    ensures puts { Puts result (info_of (record { book = index.book; rows = live_rows index.store }) ∷ []) (K.state out.old) (K.state out.new) }
{
    let line = info_line(
        index.book.d(),
        index.book.h(),
        index.book.k0(),
        index.book.k1(),
        shape,
        index.book.g(),
        index.store.live(),
        index.store.used(),
        scale_of(&index.book),
    );
    write_line(out, &line)
}

/// Writes the line of an index of any shape.
fn write_any<K: Sink>(index: AnyIndex, out: &mut K) -> Result<(), Halted>
    requires fresh { IsFresh (book_of index) (store_of index) }
    ensures puts { Puts result (info_of (view_index index) ∷ []) (K.state out.old) (K.state out.new) }
{
    match index {
        AnyIndex::F4444(index) => write_index(index, 0, out),
        AnyIndex::F555(index) => write_index(index, 1, out),
        AnyIndex::F664(index) => write_index(index, 2, out),
        AnyIndex::F88(index) => write_index(index, 3, out),
    }
}

/// Prints the numbers of an index.
pub(crate) fn print_info<H: Shelf, K: Sink>(
    alloc: Global,
    name: &str,
    shelf: &mut H,
    out: &mut K,
) -> Result<(), Halted>
    ensures plays { Plays result (λ files. info_lines files name.now) (H.state shelf.old) (H.state shelf.new) (K.state out.old) (K.state out.new) }
{
    match read_index(alloc, shelf, name) {
        Ok(index) => write_any(index, out),
        Err(stop) => Err(Halted::Stopped(stop)),
    }
}
