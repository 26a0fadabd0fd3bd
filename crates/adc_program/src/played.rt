//! What a script is played on: an engine, with the scratch of its queries.
ghost use Rattle.std.specs.Prelude.{◌≡◌, ℕ, ◌^◌, ◌<◌, ◌≤◌, ◌++◌, ◌∷◌, [], List, length, true, false, OnOk, OnErr, IfOk};
ghost use Rattle.book_model.specs.Book.{Book};
ghost use Rattle.book_model.specs.Rows.{cell_of, has_id, without};
ghost use Rattle.cell_store.specs.State.{inserted, put_rows, Changes};
ghost use Rattle.cell_store.specs.Held.{put_cause, put_done, deleted, KeepsAs, IsStore};
ghost use Rattle.cell_store.specs.Refusals.{insert_refusal, RefusesAs};
ghost use Rattle.play_script.specs.Play.{Means, ranges_of, found_by};
ghost use Rattle.query_engine.specs.Report.{query_of};
ghost use Rattle.adc_program.specs.Steps.{Puts};
ghost use Rattle.adc_program.specs.Played.{Stand, Metered, Computes, rows_of, AreUpTo, HaveAsked, RisesBy};

use crate::halts::Halted;
use crate::play::{MAX_ID, MAX_K, MAX_WANTED};
use adc_ports::Sink;
use cell_store::{Absent, InsertRefusal, Placed, PutRefusal};

/// What a query line asks: the number of its row, k, how many rows are wanted, and the ids that pass.
#[derive(Clone, Copy)]
pub(crate) struct Asked {
    pub number: u64,
    pub k: u64,
    pub wanted: u64,
    pub ids: Option<(u64, u64)>,
}

/// What a script is played on.
pub(crate) trait Played: Drop {
    /// The meters of its queries.
    type Meters;

    // The row of a vector, the answer of a query and its full rows; and how many tables of halves a query computes.
    ghost means: { Means };

    ghost computes: { Computes };

    // The widths of its shape; and its book, its store and the size of its cache.
    ghost widths: { List ℕ };

    ghost stand: { Self → Stand };

    // What its meters count.
    ghost metered: { Self.Meters → Metered };

    /// The number of components of its vectors.
    fn d(&self) -> u32
        ensures value { result ≡ (stand self.now).book.d }
        ensures some { 1 ≤ result }
        ensures few { result ≤ 1024 };

    /// How many rows are live. It also tells that the store is a store.
    fn live(&self) -> u32
        ensures live { result ≡ length (rows_of (stand self.now)) }
        ensures is { IsStore widths (stand self.now).store };

    /// Adds the row of a vector of d components as the last, and answers its cell. A refusal changes nothing.
    fn insert(&mut self, id: u32, vector: &[u8]) -> Result<u32, InsertRefusal>
        requires id { id ≤ MAX_ID }
        requires vector { length vector.now ≡ (stand self.old).book.d }
        requires stamp { (stand self.old).store.stamp < 2 ^ 62 }
        ensures refusals { RefusesAs (insert_refusal (stand self.old).store id) InsertRefusal.Memory result }
        ensures cell { IfOk result (λ cell. cell ≡ cell_of (stand self.old).book vector.now) }
        ensures ok { OnOk result ((stand self.new).store ≡ inserted (stand self.old).store (means.row (stand self.old).book id vector.now)) }
        ensures changes { OnOk result (Changes (stand self.old).store (stand self.new).store (rows_of (stand self.old) ++ means.row (stand self.old).book id vector.now ∷ [])) }
        ensures err { OnErr result (stand self.new ≡ stand self.old) }
        ensures book { (stand self.new).book ≡ (stand self.old).book }
        ensures cache { (stand self.new).cache ≡ (stand self.old).cache };

    /// Puts the row of a vector of d components as the last, in the place of the live row of its id, if there is one. A refusal
    /// changes nothing.
    fn put(&mut self, id: u32, vector: &[u8]) -> Result<Placed, PutRefusal>
        requires id { id ≤ MAX_ID }
        requires vector { length vector.now ≡ (stand self.old).book.d }
        requires stamp { (stand self.old).store.stamp < 2 ^ 62 }
        ensures refusals { RefusesAs (put_cause (stand self.old).store (means.row (stand self.old).book id vector.now)) PutRefusal.Memory result }
        ensures cell { IfOk result (λ placed. placed.cell ≡ cell_of (stand self.old).book vector.now) }
        ensures replaced { IfOk result (λ placed. placed.replaced ≡ has_id (rows_of (stand self.old)) id) }
        ensures keeps { OnOk result (KeepsAs (stand self.new).store (put_done (stand self.old).store (means.row (stand self.old).book id vector.now))) }
        ensures changes { OnOk result (Changes (stand self.old).store (stand self.new).store (put_rows (rows_of (stand self.old)) (means.row (stand self.old).book id vector.now))) }
        ensures err { OnErr result (stand self.new ≡ stand self.old) }
        ensures book { (stand self.new).book ≡ (stand self.old).book }
        ensures cache { (stand self.new).cache ≡ (stand self.old).cache };

    /// Takes the row of an id out; the others keep their order. If no live row has the id, nothing changes.
    fn delete(&mut self, id: u32) -> Result<(), Absent>
        requires id { id ≤ MAX_ID }
        requires stamp { (stand self.old).store.stamp < 2 ^ 62 }
        ensures there { OnOk result (has_id (rows_of (stand self.old)) id ≡ true) }
        ensures keeps { OnOk result (KeepsAs (stand self.new).store (deleted (stand self.old).store id)) }
        ensures changes { OnOk result (Changes (stand self.old).store (stand self.new).store (without (rows_of (stand self.old)) id)) }
        ensures absent { OnErr result (has_id (rows_of (stand self.old)) id ≡ false) }
        ensures err { OnErr result (stand self.new ≡ stand self.old) }
        ensures book { (stand self.new).book ≡ (stand self.old).book }
        ensures cache { (stand self.new).cache ≡ (stand self.old).cache };

    /// Asks for the nearest of the rows whose ids pass, and writes what it found.
    fn query<K: Sink>(
        &mut self,
        out: &mut K,
        row: &[u8],
        asked: Asked,
        meters: &mut Self::Meters,
    ) -> Result<(), Halted>
        requires vector { length row.now ≡ (stand self.old).book.d }
        requires k_some { 1 ≤ asked.k }
        requires k_few { asked.k ≤ MAX_K }
        requires wanted_some { 1 ≤ asked.wanted }
        requires wanted_few { asked.wanted ≤ MAX_WANTED }
        requires meters { AreUpTo (2 ^ 62) (metered meters.old) }
        ensures stand { stand self.new ≡ stand self.old }
        ensures puts { Puts result (found_by means (stand self.old).book asked.number (query_of row.now asked.k asked.wanted (ranges_of asked.ids)) (rows_of (stand self.old))) (K.state out.old) (K.state out.new) }
        ensures asked { HaveAsked means computes (stand self.old) (record { query = query_of row.now asked.k asked.wanted (ranges_of asked.ids); rows = rows_of (stand self.old) } ∷ []) (metered meters.old) (metered meters.new) }
        ensures little { RisesBy 1 (stand self.old) (stand self.new) (metered meters.old) (metered meters.new) };

    // A row has the id that it is made under.
    ghost numbered: { (book : Book) (id : ℕ) (v : List ℕ) → (means.row book id v).id ≡ id };
}
