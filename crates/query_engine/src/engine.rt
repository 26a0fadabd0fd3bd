//! The engine: a book, and a store of rows.
ghost use Rattle.std.specs.Prelude.{◌≡◌, ℕ, ◌*◌, ◌^◌, ◌≤◌, ◌<◌, ◌++◌, ◌∷◌, [], take, true, false, length, IfOk, OnOk, OnErr};
ghost use Rattle.std.specs.List.{Contains};
ghost use Rattle.book_model.specs.Rows.{cell_of, code_of, row_of, has_id, without};
ghost use Rattle.cell_store.specs.State.{empty, inserted, live_rows, put_rows, rows_at, Changes, Unpins};
ghost use Rattle.cell_store.specs.Held.{deleted, put_cause, put_done, KeepsAs};
ghost use Rattle.cell_store.specs.Refusals.{insert_refusal, RefusesAs};
ghost use Rattle.shape_core.specs.Word.{AreCodeWords, code_of_words};
ghost use Rattle.query_engine.specs.State.{pinned_now};
ghost use Rattle.query_engine.specs.Parts.{HasRoomFor, StandsFor};
ghost use Rattle.query_engine.specs.Report.{query_of, Answers, HaveRoom};

use crate::visiting::visit;
use crate::{Meters, Report, Scratch};
use cell_store::{Absent, CellStore, InsertRefusal, Placed, PutRefusal, Sessions};
use code_assign::{coarse, encode};
use codebook_core::Codebook;
use id_filter::IdSelector;
use shape_core::Shape;
use std::alloc::Global;
use std::marker::Model;

/// An engine over a book of a shape. It means its book and its store.
#[derive(Drop)]
pub struct Engine<S: Shape> {
    book: Codebook<S>,
    store: CellStore<S>,
}

impl<S: Shape> Model for Engine<S> {
    ghost use Rattle.query_engine.specs.State.{State, IsEngine};

    ghost Value = { State };

    ghost view = { λ e. record { book = e.book; store = e.store } };

    ghost invariant = { λ e. IsEngine S.widths e.book e.store };
}

impl<S: Shape> Engine<S> {
    /// An engine without rows, of which at most `most` may be live, 1 to 4,194,304.
    pub fn new(alloc: Global, book: Codebook<S>, most: u32) -> Engine<S>
        requires some { 1 ≤ most }
        requires few { most ≤ 4194304 }
        ensures { result ≡ record { book = book; store = empty book.g (book.k0 * book.k1) most } }
    {
        let _d = book.d();
        let store = CellStore::new(alloc, book.g(), book.k0() * book.k1(), most);
        Engine { book, store }
    }

    /// The engine of a book and a store of its sizes.
    pub fn from_parts(book: Codebook<S>, store: CellStore<S>) -> Engine<S>
        requires g { store.g ≡ book.g }
        requires cells { store.cells ≡ book.k0 * book.k1 }
        ensures { result ≡ record { book = book; store = store } }
    {
        let _d = book.d();
        Engine { book, store }
    }

    /// The book. It also tells that the store has its sizes.
    pub fn book(&self) -> &Codebook<S>
        ensures value { result.now ≡ self.now.book }
        ensures g { self.now.store.g ≡ self.now.book.g }
        ensures cells { self.now.store.cells ≡ self.now.book.k0 * self.now.book.k1 }
    {
        &self.book
    }

    /// The store.
    pub fn store(&self) -> &CellStore<S>
        ensures { result.now ≡ self.now.store }
    {
        &self.store
    }

    /// Answers a query of d components with the k nearest, 1 to 1000, of the allowed live rows in the first cells that hold as
    /// many of them as are wanted, 1 to 4,194,304, or all there are. The answer stands in the scratch.
    pub fn search<P: IdSelector>(
        &self,
        scratch: &mut Scratch<S>,
        query: &[u8],
        k: u32,
        wanted: u32,
        selector: &P,
        meters: &mut Meters,
    ) -> Report
        requires selector { P.can_pass selector.now }
        requires room { HasRoomFor self.now.book scratch.old }
        requires query { length query.now ≡ self.now.book.d }
        requires some { 1 ≤ k }
        requires few { k ≤ scratch.old.best.room }
        requires wanted_some { 1 ≤ wanted }
        requires wanted_few { wanted ≤ 4194304 }
        requires meters { HaveRoom meters.old }
        ensures answers { Answers self.now.book (query_of query.now k wanted (P.ranges selector.now)) self.now.store scratch.new.best result meters.old meters.new }
        ensures stands { StandsFor S.widths self.now.book query.now scratch.new.ranks scratch.new.full }
        ensures room { HasRoomFor self.now.book scratch.new }
        ensures best_room { scratch.new.best.room ≡ scratch.old.best.room }
    {
        scratch.ask(&self.book, query);
        visit(&self.store, scratch, k, wanted, selector, meters)
    }

    /// Pins the present stamp and gives it. Where 64 pins are held, nothing changes.
    pub fn pin(&mut self) -> Result<u64, Sessions>
        ensures ok { IfOk result (λ stamp. stamp ≡ self.old.store.stamp) }
        ensures room { OnOk result (length self.old.store.pins < 64) }
        ensures pins { OnOk result (self.new ≡ record self.old { store = pinned_now self.old.store }) }
        ensures full { OnErr result (length self.old.store.pins ≡ 64) }
        ensures err { OnErr result (self.new ≡ self.old) }
    {
        self.store.pin()
    }

    /// Takes one pin of a stamp away. The live rows stay, and so do the rows at each stamp that is still pinned.
    pub fn unpin(&mut self, stamp: u64)
        requires { Contains self.old.store.pins stamp }
        ensures book { self.new.book ≡ self.old.book }
        ensures pins { Unpins stamp self.old.store.pins self.new.store.pins }
        ensures keeps { KeepsAs self.new.store (record self.old.store { pins = self.new.store.pins }) }
        ensures live { live_rows self.new.store ≡ live_rows self.old.store }
        ensures pinned { (s : ℕ) → Contains self.new.store.pins s → rows_at s self.new.store.kept ≡ rows_at s self.old.store.kept }
    {
        unpin_store(&mut self.store, stamp);
    }
}

impl<S: Shape> Engine<S> {
    /// Adds the row of a vector of d components as the last, and answers its cell. A refusal changes nothing; the causes are
    /// tried in the order of `InsertRefusal`.
    pub fn insert(&mut self, id: u32, vector: &[u8]) -> Result<u32, InsertRefusal>
        requires id { id ≤ 2147483647 }
        requires vector { length vector.now ≡ self.old.book.d }
        requires stamp { self.old.store.stamp < 2 ^ 62 }
        ensures refusals { RefusesAs (insert_refusal self.old.store id) InsertRefusal.Memory result }
        ensures cell { IfOk result (λ cell. cell ≡ cell_of self.old.book vector.now) }
        ensures book { self.new.book ≡ self.old.book }
        ensures ok { OnOk result (self.new.store ≡ inserted self.old.store (row_of self.old.book id vector.now)) }
        ensures changes { OnOk result (Changes self.old.store self.new.store (live_rows self.old.store ++ row_of self.old.book id vector.now ∷ [])) }
        ensures err { OnErr result (self.new ≡ self.old) }
    {
        insert_vector(&self.book, &mut self.store, id, vector)
    }

    /// Puts the row of a vector of d components as the last, in the place of the live row of its id, if there is one. A refusal
    /// changes nothing; the causes are tried in the order of `PutRefusal`.
    pub fn put(&mut self, id: u32, vector: &[u8]) -> Result<Placed, PutRefusal>
        requires id { id ≤ 2147483647 }
        requires vector { length vector.now ≡ self.old.book.d }
        requires stamp { self.old.store.stamp < 2 ^ 62 }
        ensures refusals { RefusesAs (put_cause self.old.store (row_of self.old.book id vector.now)) PutRefusal.Memory result }
        ensures cell { IfOk result (λ placed. placed.cell ≡ cell_of self.old.book vector.now) }
        ensures replaced { IfOk result (λ placed. placed.replaced ≡ has_id (live_rows self.old.store) id) }
        ensures book { self.new.book ≡ self.old.book }
        ensures keeps { OnOk result (KeepsAs self.new.store (put_done self.old.store (row_of self.old.book id vector.now))) }
        ensures changes { OnOk result (Changes self.old.store self.new.store (put_rows (live_rows self.old.store) (row_of self.old.book id vector.now))) }
        ensures err { OnErr result (self.new ≡ self.old) }
    {
        put_vector(&self.book, &mut self.store, id, vector)
    }

    /// Takes the row of an id out; the others keep their order. Where no live row has the id, nothing changes.
    pub fn delete(&mut self, id: u32) -> Result<(), Absent>
        requires id { id ≤ 2147483647 }
        requires stamp { self.old.store.stamp < 2 ^ 62 }
        ensures there { OnOk result (has_id (live_rows self.old.store) id ≡ true) }
        ensures book { self.new.book ≡ self.old.book }
        ensures keeps { OnOk result (KeepsAs self.new.store (deleted self.old.store id)) }
        ensures changes { OnOk result (Changes self.old.store self.new.store (without (live_rows self.old.store) id)) }
        ensures absent { OnErr result (has_id (live_rows self.old.store) id ≡ false) }
        ensures err { OnErr result (self.new ≡ self.old) }
    {
        delete_from(&mut self.store, id)
    }
}

/// Adds the row of a vector to a store of the book's sizes.
fn insert_vector<S: Shape>(
    book: &Codebook<S>,
    store: &mut CellStore<S>,
    id: u32,
    vector: &[u8],
) -> Result<u32, InsertRefusal>
    requires id { id ≤ 2147483647 }
    requires vector { length vector.now ≡ book.now.d }
    requires stamp { store.old.stamp < 2 ^ 62 }
    requires g { store.old.g ≡ book.now.g }
    requires cells { store.old.cells ≡ book.now.k0 * book.now.k1 }
    ensures refusals { RefusesAs (insert_refusal store.old id) InsertRefusal.Memory result }
    ensures cell { IfOk result (λ cell. cell ≡ cell_of book.now vector.now) }
    ensures ok { OnOk result (store.new ≡ inserted store.old (row_of book.now id vector.now)) }
    ensures changes { OnOk result (Changes store.old store.new (live_rows store.old ++ row_of book.now id vector.now ∷ [])) }
    ensures err { OnErr result (store.new ≡ store.old) }
{
    let _d = book.d();
    let cell = cell_for(book, vector);
    let words = words_for(book, vector);
    let _before = store.stamp();
    store.insert(id, cell, &words[..book.g() as usize])?;
    let _after = store.stamp();
    Ok(cell)
}

/// The cell of a vector.
#[tactic(auto, using(crate::proofs::CellBound::cell_within))]
fn cell_for<S: Shape>(book: &Codebook<S>, vector: &[u8]) -> u32
    requires vector { length vector.now ≡ book.now.d }
    ensures value { result ≡ cell_of book.now vector.now }
    ensures within { result < book.now.k0 * book.now.k1 }
{
    let _d = book.d();
    coarse(book, vector)
}

/// The code of a vector in its first g words.
fn words_for<S: Shape>(book: &Codebook<S>, vector: &[u8]) -> [u16; 32]
    requires vector { length vector.now ≡ book.now.d }
    ensures good { AreCodeWords S.widths book.now.g (take book.now.g result) }
    ensures code { code_of_words S.widths (take book.now.g result) ≡ code_of book.now vector.now }
    ensures few { book.now.g ≤ 32 }
{
    let _d = book.d();
    let mut words = [0; 32];
    encode(book, vector, &mut words[..book.g() as usize]);
    words
}

/// Puts the row of a vector into a store of the book's sizes.
fn put_vector<S: Shape>(
    book: &Codebook<S>,
    store: &mut CellStore<S>,
    id: u32,
    vector: &[u8],
) -> Result<Placed, PutRefusal>
    requires id { id ≤ 2147483647 }
    requires vector { length vector.now ≡ book.now.d }
    requires stamp { store.old.stamp < 2 ^ 62 }
    requires g { store.old.g ≡ book.now.g }
    requires cells { store.old.cells ≡ book.now.k0 * book.now.k1 }
    ensures refusals { RefusesAs (put_cause store.old (row_of book.now id vector.now)) PutRefusal.Memory result }
    ensures cell { IfOk result (λ placed. placed.cell ≡ cell_of book.now vector.now) }
    ensures replaced { IfOk result (λ placed. placed.replaced ≡ has_id (live_rows store.old) id) }
    ensures keeps { OnOk result (KeepsAs store.new (put_done store.old (row_of book.now id vector.now))) }
    ensures changes { OnOk result (Changes store.old store.new (put_rows (live_rows store.old) (row_of book.now id vector.now))) }
    ensures err { OnErr result (store.new ≡ store.old) }
{
    let _d = book.d();
    let cell = cell_for(book, vector);
    let words = words_for(book, vector);
    let _before = store.stamp();
    let replaced = store.put(id, cell, &words[..book.g() as usize])?;
    let _after = store.stamp();
    Ok(Placed { cell, replaced })
}

/// Takes the row of an id out of a store.
fn delete_from<S: Shape>(store: &mut CellStore<S>, id: u32) -> Result<(), Absent>
    requires id { id ≤ 2147483647 }
    requires stamp { store.old.stamp < 2 ^ 62 }
    ensures there { OnOk result (has_id (live_rows store.old) id ≡ true) }
    ensures keeps { OnOk result (KeepsAs store.new (deleted store.old id)) }
    ensures changes { OnOk result (Changes store.old store.new (without (live_rows store.old) id)) }
    ensures absent { OnErr result (has_id (live_rows store.old) id ≡ false) }
    ensures err { OnErr result (store.new ≡ store.old) }
{
    let _before = store.stamp();
    store.delete(id)?;
    let _after = store.stamp();
    Ok(())
}

/// Takes one pin of a stamp of a store away.
fn unpin_store<S: Shape>(store: &mut CellStore<S>, stamp: u64)
    requires { Contains store.old.pins stamp }
    ensures pins { Unpins stamp store.old.pins store.new.pins }
    ensures keeps { KeepsAs store.new (record store.old { pins = store.new.pins }) }
    ensures live { live_rows store.new ≡ live_rows store.old }
    ensures pinned { (s : ℕ) → Contains store.new.pins s → rows_at s store.new.kept ≡ rows_at s store.old.kept }
{
    let _before = store.stamp();
    store.unpin(stamp);
    let _after = store.stamp();
}
