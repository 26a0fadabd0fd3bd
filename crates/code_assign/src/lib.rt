//! Which cell and which code a vector gets: the nearest words of a codebook (product quantization over an inverted
//! multi-index). Of the nearest words the one with the least number is taken.
#![tactic(auto)]

ghost use Rattle.std.specs.Prelude.{◌≡◌, ◌+◌, ◌*◌, ◌^◌, ◌%◌, ◌<◌, ◌≤◌, length, slice_index};
ghost use Rattle.book_model.specs.Distance.{nearest};
ghost use Rattle.book_model.specs.Book.{IsGood, part, sub_words, sub_count};
ghost use Rattle.book_model.specs.Rows.{cell_of, code_of};
ghost use Rattle.shape_core.specs.Word.{words_of, AreCodeWords};

use codebook_core::Codebook;
use shape_core::{Shape, pack};

/// The cell of a vector of d bytes: `a * K1 + b`, where a is the nearest coarse word to its first h bytes and b that to
/// the rest (the inverted multi-index).
pub fn coarse<S: Shape>(book: &Codebook<S>, vector: &[u8]) -> u32
    requires { length vector.now ≡ book.now.d }
    ensures { result ≡ cell_of book.now vector.now }
{
    let d = book.d() as usize;
    let h = book.h() as usize;
    let scale = book.scale();
    let a = book.coarse0_columns().nearest(scale, &vector[..h]);
    let b = book.coarse1_columns().nearest(scale, &vector[h..d]);
    a * book.k1() + b
}

/// Writes the code of a vector of d bytes into g words: field f of word w holds the nearest word of sub-quantizer
/// `w * FIELDS + f` to the vector's stretch (product quantization).
pub fn encode<S: Shape>(book: &Codebook<S>, vector: &[u8], into: &mut [u16])
    requires vector { length vector.now ≡ book.now.d }
    requires into { length into.old ≡ book.now.g }
    ensures words { into.new ≡ words_of S.widths book.now.g (code_of book.now vector.now) }
    ensures good { AreCodeWords S.widths book.now.g into.new }
{
    let _d = book.d();
    for (w, word) in into.iter_mut().enumerate() {
        *word = code_word(book, vector, w as u32);
    }
}

/// Word w of the code of a vector.
fn code_word<S: Shape>(book: &Codebook<S>, vector: &[u8], w: u32) -> u16
    requires good { IsGood book.now }
    requires shape { book.now.widths ≡ S.widths }
    requires vector { length vector.now ≡ book.now.d }
    requires number { w < book.now.g }
    ensures { result ≡ slice_index (words_of S.widths book.now.g (code_of book.now vector.now)) w }
{
    let mut fields = [0; 4];
    for f in 0..S::FIELDS {
        fields[f] = code_field(book, vector, w * S::FIELDS as u32 + f as u32);
    }
    pack::<S>(&fields[..S::FIELDS])
}

/// The nearest word of sub-quantizer j to the vector's stretch.
fn code_field<S: Shape>(book: &Codebook<S>, vector: &[u8], j: u32) -> u8
    requires good { IsGood book.now }
    requires shape { book.now.widths ≡ S.widths }
    requires vector { length vector.now ≡ book.now.d }
    requires number { j < sub_count book.now }
    ensures { result ≡ nearest book.now.scale (sub_words book.now j) (part book.now j vector.now) }
{
    let start = book.start(j) as usize;
    let stretch = &vector[start..start + book.length(j) as usize];
    book.sub_columns(j).nearest(book.scale(), stretch) as u8
}
