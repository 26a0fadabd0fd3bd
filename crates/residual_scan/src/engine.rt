//! The engine: a residual book, and a store of rows.
ghost use Rattle.std.specs.Prelude.{◌≡◌, ◌*◌, ◌^◌, ◌≤◌, ◌<◌, ◌++◌, ◌∷◌, [], true, false, length, IfOk, OnOk, OnErr};
ghost use Rattle.book_model.specs.Rows.{cell_of, has_id, without};
ghost use Rattle.cell_store.specs.State.{empty, inserted, live_rows, put_rows, Changes};
ghost use Rattle.cell_store.specs.Held.{deleted, put_cause, put_done, KeepsAs};
ghost use Rattle.cell_store.specs.Refusals.{insert_refusal, RefusesAs};
ghost use Rattle.half_tables.specs.Residual.{IsResidual, residual_row};

use crate::codes::words_for;
use cell_store::{Absent, CellStore, InsertRefusal, Placed, PutRefusal};
use code_assign::coarse;
use codebook_core::Codebook;
use shape_core::Shape;
use std::alloc::Global;
use std::marker::Model;

/// An engine over a residual book of a shape. It means its book and its store.
#[derive(Drop)]
pub struct ResidualEngine<S: Shape> {
    pub(crate) book: Codebook<S>,
    pub(crate) store: CellStore<S>,
}

impl<S: Shape> Model for ResidualEngine<S> {
    ghost use Rattle.residual_scan.specs.State.{State, IsResidualEngine};

    ghost Value = { State };

    ghost view = { λ e. record { book = e.book; store = e.store } };

    ghost invariant = { λ e. IsResidualEngine S.widths e.book e.store };
}

impl<S: Shape> ResidualEngine<S> {
    /// An engine without rows, of which at most `most` may be live, 1 to 4,194,304.
    pub fn new(alloc: Global, book: Codebook<S>, most: u32) -> ResidualEngine<S>
        requires residual { IsResidual book }
        requires some { 1 ≤ most }
        requires few { most ≤ 4194304 }
        ensures { result ≡ record { book = book; store = empty book.g (book.k0 * book.k1) most } }
    {
        let _d = book.d();
        let store = CellStore::new(alloc, book.g(), book.k0() * book.k1(), most);
        ResidualEngine { book, store }
    }

    /// The book. It also tells that it is a residual book, and that the store has its sizes.
    pub fn book(&self) -> &Codebook<S>
        ensures value { result.now ≡ self.now.book }
        ensures residual { IsResidual self.now.book }
        ensures g { self.now.store.g ≡ self.now.book.g }
        ensures cells { self.now.store.cells ≡ self.now.book.k0 * self.now.book.k1 }
    {
        &self.book
    }

    /// The store.
    pub fn store(&self) -> &CellStore<S>
        ensures { result.now ≡ self.now.store }
    {
        &self.store
    }

    /// Adds the row of a vector of d components as the last, and answers its cell. A refusal changes nothing; the causes are
    /// tried in the order of `InsertRefusal`.
    pub fn insert(&mut self, id: u32, vector: &[u8]) -> Result<u32, InsertRefusal>
        requires id { id ≤ 2147483647 }
        requires vector { length vector.now ≡ self.old.book.d }
        requires stamp { self.old.store.stamp < 2 ^ 62 }
        ensures refusals { RefusesAs (insert_refusal self.old.store id) InsertRefusal.Memory result }
        ensures cell { IfOk result (λ cell. cell ≡ cell_of self.old.book vector.now) }
        ensures book { self.new.book ≡ self.old.book }
        ensures ok { OnOk result (self.new.store ≡ inserted self.old.store (residual_row self.old.book id vector.now)) }
        ensures changes { OnOk result (Changes self.old.store self.new.store (live_rows self.old.store ++ residual_row self.old.book id vector.now ∷ [])) }
        ensures err { OnErr result (self.new ≡ self.old) }
    {
        insert_vector(&self.book, &mut self.store, id, vector)
    }

    /// Puts the row of a vector of d components as the last, in the place of the live row of its id, if there is one. A refusal
    /// changes nothing; the causes are tried in the order of `PutRefusal`.
    pub fn put(&mut self, id: u32, vector: &[u8]) -> Result<Placed, PutRefusal>
        requires id { id ≤ 2147483647 }
        requires vector { length vector.now ≡ self.old.book.d }
        requires stamp { self.old.store.stamp < 2 ^ 62 }
        ensures refusals { RefusesAs (put_cause self.old.store (residual_row self.old.book id vector.now)) PutRefusal.Memory result }
        ensures cell { IfOk result (λ placed. placed.cell ≡ cell_of self.old.book vector.now) }
        ensures replaced { IfOk result (λ placed. placed.replaced ≡ has_id (live_rows self.old.store) id) }
        ensures book { self.new.book ≡ self.old.book }
        ensures keeps { OnOk result (KeepsAs self.new.store (put_done self.old.store (residual_row self.old.book id vector.now))) }
        ensures changes { OnOk result (Changes self.old.store self.new.store (put_rows (live_rows self.old.store) (residual_row self.old.book id vector.now))) }
        ensures err { OnErr result (self.new ≡ self.old) }
    {
        put_vector(&self.book, &mut self.store, id, vector)
    }

    /// Takes the row of an id out; the others keep their order. If no live row has the id, nothing changes.
    pub fn delete(&mut self, id: u32) -> Result<(), Absent>
        requires id { id ≤ 2147483647 }
        requires stamp { self.old.store.stamp < 2 ^ 62 }
        ensures there { OnOk result (has_id (live_rows self.old.store) id ≡ true) }
        ensures book { self.new.book ≡ self.old.book }
        ensures keeps { OnOk result (KeepsAs self.new.store (deleted self.old.store id)) }
        ensures changes { OnOk result (Changes self.old.store self.new.store (without (live_rows self.old.store) id)) }
        ensures absent { OnErr result (has_id (live_rows self.old.store) id ≡ false) }
        ensures err { OnErr result (self.new ≡ self.old) }
    {
        delete_from(&mut self.store, id)
    }
}

/// Adds the row of a vector to a store of the book's sizes.
fn insert_vector<S: Shape>(
    book: &Codebook<S>,
    store: &mut CellStore<S>,
    id: u32,
    vector: &[u8],
) -> Result<u32, InsertRefusal>
    requires residual { IsResidual book.now }
    requires id { id ≤ 2147483647 }
    requires vector { length vector.now ≡ book.now.d }
    requires stamp { store.old.stamp < 2 ^ 62 }
    requires g { store.old.g ≡ book.now.g }
    requires cells { store.old.cells ≡ book.now.k0 * book.now.k1 }
    ensures refusals { RefusesAs (insert_refusal store.old id) InsertRefusal.Memory result }
    ensures cell { IfOk result (λ cell. cell ≡ cell_of book.now vector.now) }
    ensures ok { OnOk result (store.new ≡ inserted store.old (residual_row book.now id vector.now)) }
    ensures changes { OnOk result (Changes store.old store.new (live_rows store.old ++ residual_row book.now id vector.now ∷ [])) }
    ensures err { OnErr result (store.new ≡ store.old) }
{
    let _d = book.d();
    let cell = cell_for(book, vector);
    let words = words_for(book, vector, cell);
    let _before = store.stamp();
    store.insert(id, cell, &words[..book.g() as usize])?;
    let _after = store.stamp();
    Ok(cell)
}

/// The cell of a vector.
#[tactic(auto, using(query_engine::proofs::CellBound::cell_within))]
fn cell_for<S: Shape>(book: &Codebook<S>, vector: &[u8]) -> u32
    requires vector { length vector.now ≡ book.now.d }
    ensures value { result ≡ cell_of book.now vector.now }
    ensures within { result < book.now.k0 * book.now.k1 }
{
    let _d = book.d();
    coarse(book, vector)
}

/// Puts the row of a vector into a store of the book's sizes.
fn put_vector<S: Shape>(
    book: &Codebook<S>,
    store: &mut CellStore<S>,
    id: u32,
    vector: &[u8],
) -> Result<Placed, PutRefusal>
    requires residual { IsResidual book.now }
    requires id { id ≤ 2147483647 }
    requires vector { length vector.now ≡ book.now.d }
    requires stamp { store.old.stamp < 2 ^ 62 }
    requires g { store.old.g ≡ book.now.g }
    requires cells { store.old.cells ≡ book.now.k0 * book.now.k1 }
    ensures refusals { RefusesAs (put_cause store.old (residual_row book.now id vector.now)) PutRefusal.Memory result }
    ensures cell { IfOk result (λ placed. placed.cell ≡ cell_of book.now vector.now) }
    ensures replaced { IfOk result (λ placed. placed.replaced ≡ has_id (live_rows store.old) id) }
    ensures keeps { OnOk result (KeepsAs store.new (put_done store.old (residual_row book.now id vector.now))) }
    ensures changes { OnOk result (Changes store.old store.new (put_rows (live_rows store.old) (residual_row book.now id vector.now))) }
    ensures err { OnErr result (store.new ≡ store.old) }
{
    let _d = book.d();
    let cell = cell_for(book, vector);
    let words = words_for(book, vector, cell);
    let _before = store.stamp();
    let replaced = store.put(id, cell, &words[..book.g() as usize])?;
    let _after = store.stamp();
    Ok(Placed { cell, replaced })
}

/// Takes the row of an id out of a store.
fn delete_from<S: Shape>(store: &mut CellStore<S>, id: u32) -> Result<(), Absent>
    requires id { id ≤ 2147483647 }
    requires stamp { store.old.stamp < 2 ^ 62 }
    ensures there { OnOk result (has_id (live_rows store.old) id ≡ true) }
    ensures keeps { OnOk result (KeepsAs store.new (deleted store.old id)) }
    ensures changes { OnOk result (Changes store.old store.new (without (live_rows store.old) id)) }
    ensures absent { OnErr result (has_id (live_rows store.old) id ≡ false) }
    ensures err { OnErr result (store.new ≡ store.old) }
{
    let _before = store.stamp();
    store.delete(id)?;
    let _after = store.stamp();
    Ok(())
}
