//! A session and its room.
ghost use Rattle.std.specs.Prelude.{◌≡◌, ℕ, ◌+◌, ◌*◌, ◌-◌, ◌^◌, ◌<◌, ◌≤◌, ◌≢◌, ◌⊎◌, true, false, length, take, min, IfOk, OnOk, OnErr, List, if◌then◌else◌};
ghost use Rattle.std.specs.List.{Contains};
ghost use Rattle.book_model.specs.Book.{Book};
ghost use Rattle.book_model.specs.Rows.{Row, passing};
ghost use Rattle.book_model.specs.Visit.{needed};
ghost use Rattle.cell_store.specs.State.{rows_at, live_rows, Unpins};
ghost use Rattle.cell_store.specs.Held.{KeepsAs};
ghost use Rattle.query_engine.specs.State.{pinned_now};
ghost use Rattle.coarse_rank.specs.Ranked.{cells_of};
ghost use Rattle.query_engine.specs.Parts.{HasRoomFor, StandsFor};
ghost use Rattle.query_engine.specs.Progress.{HasVisited, block_count};
ghost use Rattle.query_engine.specs.Report.{query_of, HaveRoom};
ghost use Rattle.query_sessions.specs.Standing.{StandsOver, CanGoOn, HasAnswered, IsQuestion, SameQuestion, SaysWhether, cells_given, cells_in_all};

use crate::Step;
use adc_ports::Memory;
use best_k::Pair;
use cell_store::{Sessions, Snapshot};
use codebook_core::Codebook;
use id_filter::IdSelector;
use query_engine::{Engine, Meters, Report, Scratch};
use shape_core::Shape;
use std::alloc::Global;
use std::marker::Model;

/// The ranks, walk, tables and best list of one session: all the memory that a session takes.
#[derive(Drop)]
pub struct Room<S: Shape> {
    scratch: Scratch<S>,
}

/// A query that goes by steps over the rows at a pinned stamp, whatever changes between its steps. It holds its room, its
/// selector and a copy of its query, and beside them only numbers.
#[derive(Drop)]
pub struct Session<S: Shape, P: IdSelector> {
    scratch: Scratch<S>,
    selector: P,
    query: [u8; 1024],
    d: usize,
    stamp: u64,
    k: u32,
    wanted: u32,
    needed: u32,
    cells: u32,
    full: u32,
    ended: bool,
}

impl<S: Shape> Model for Room<S> {
    ghost use Rattle.query_engine.specs.Parts.{Scratched};

    ghost Value = { Scratched };

    ghost view = { λ r. r.scratch };
}

impl<S: Shape, P: IdSelector> Model for Session<S, P> {
    ghost use Rattle.std.specs.Prelude.{◌≡◌, ◌≤◌, take};
    ghost use Rattle.query_sessions.specs.Standing.{Opened};

    ghost Value = { Opened };

    ghost view = { λ s. record { stamp = s.stamp; query = take s.d s.query; k = s.k; wanted = s.wanted; ranges = P.ranges s.selector; needed = s.needed; parts = s.scratch; full = s.full; ended = s.ended } };

    ghost invariant = { λ s. (s.d ≤ 1024) × (s.cells ≡ s.scratch.walk.given) × (s.needed ≤ 8388608) × (s.scratch.state.rows ≤ 16777216) × P.can_pass s.selector };
}

impl<S: Shape> Room<S> {
    /// Room for a session by a book that asks for at most k rows, 1 to 1000. It alone takes memory.
    ///
    /// # Errors
    /// `Memory` if memory runs out.
    pub fn new(alloc: Global, book: &Codebook<S>, k: u32) -> Result<Room<S>, Memory>
        requires some { 1 ≤ k }
        requires few { k ≤ 1000 }
        ensures room { IfOk result (λ room. HasRoomFor book.now room) }
        ensures best { IfOk result (λ room. room.best.room ≡ k) }
    {
        let scratch = Scratch::new(alloc, book, k)?;
        Ok(Room { scratch })
    }
}

impl<S: Shape, P: IdSelector> Session<S, P> {
    ghost use Rattle.std.specs.Borrow.{sem};
    ghost use Rattle.std.specs.Prelude.{⊤, map};
    ghost use denote.Follow.{follows_so};
    ghost use mathlib.Core.Option.{none};
    ghost use Rattle.best_k.specs.Least.{key_of};
    ghost use Rattle.query_sessions.specs.contracts.session.Session.{the_row};

    /// Pins the present stamp, and begins a query of d bytes over the rows of now: its answer is to be the k nearest, 1 to
    /// 1000, of the rows that pass in the first cells that hold as many of them as are wanted, 1 to 4,194,304. It visits
    /// no cell yet.
    ///
    /// # Errors
    /// `Sessions` if 64 pins are held: the engine is as it was, and room and selector are dropped.
    pub fn open(
        engine: &mut Engine<S>,
        room: Room<S>,
        query: &[u8],
        k: u32,
        wanted: u32,
        selector: P,
        meters: &mut Meters,
    ) -> Result<Session<S, P>, Sessions>
    where
        P: Drop,
        requires selector { P.can_pass selector }
        requires room { HasRoomFor engine.old.book room }
        requires query { length query.now ≡ engine.old.book.d }
        requires some { 1 ≤ k }
        requires few { k ≤ room.best.room }
        requires wanted_some { 1 ≤ wanted }
        requires wanted_few { wanted ≤ 4194304 }
        requires meters { HaveRoom meters.old }
        ensures stands { IfOk result (λ session. StandsOver S.widths engine.old.book (live_rows engine.old.store) session) }
        ensures can { IfOk result (λ session. CanGoOn S.widths engine.new session) }
        ensures question { IfOk result (λ session. IsQuestion engine.old.store.stamp query.now k wanted (P.ranges selector) session) }
        ensures fresh { IfOk result (λ session. (cells_given session ≡ 0) × (session.ended ≡ false)) }
        ensures pins { OnOk result (engine.new ≡ record engine.old { store = pinned_now engine.old.store }) }
        ensures room_left { OnOk result (length engine.old.store.pins < 64) }
        ensures full { OnErr result (length engine.old.store.pins ≡ 64) }
        ensures err { OnErr result (engine.new ≡ engine.old) }
        ensures free { OnErr result (meters.new ≡ meters.old) }
        ensures pairs { (meters.old.pairs ≤ meters.new.pairs) × (meters.new.pairs ≤ meters.old.pairs + 1) }
        ensures others { meters.new ≡ record meters.old { pairs = meters.new.pairs } }
    {
        let stamp = engine.pin()?;
        let mut scratch = room.scratch;
        let needed = start(engine, &mut scratch, query, k, wanted, &selector, meters);
        Ok(Session {
            scratch,
            selector,
            query: copied(query),
            d: query.len(),
            stamp,
            k,
            wanted,
            needed,
            cells: 0,
            full: 0,
            ended: false,
        })
    }

    /// The stamp whose rows the session reads.
    pub fn stamp(&self) -> u64
        ensures { result ≡ self.now.stamp }
    {
        self.stamp
    }

    /// Whether a step answered that no cell of the visit remains.
    pub fn ended(&self) -> bool
        ensures { result ≡ self.now.ended }
    {
        self.ended
    }

    /// How many cells and rows were visited by now, and how many of these rows needed a full distance.
    pub fn report(&self) -> Report
        ensures cells { result.cells ≡ cells_given self.now }
        ensures live { result.live ≡ self.now.parts.state.rows }
        ensures few { self.now.parts.state.rows ≤ 16777216 }
        ensures full { result.full ≡ self.now.full }
        ensures answered { (book : Book) (rows : List Row) → StandsOver S.widths book rows self.now → self.now.ended ≡ true → HasAnswered book rows self.now }
    {
        Report {
            cells: self.cells,
            live: self.scratch.rows(),
            full: self.full,
        }
    }

    /// The k nearest of the rows that were visited by now, in order, as squared distances and ids.
    pub fn answers(&mut self) -> &[Pair]
        ensures* unchanged { sem 𝓛 (follows_so (the_row S.row P.row S.Shape P.IdSelector) (the_row S.row P.row S.Shape P.IdSelector) self.entry.ghost_name none (λ _ _. ⊤) (λ after. after ≡ self.old)) }
        ensures value { map key_of result.now ≡ self.old.parts.best.pairs }
    {
        self.scratch.answers()
    }

    /// Ends the session and gives its pin back. The live rows stay, and so do the rows at each stamp that is still pinned.
    pub fn take(self, engine: &mut Engine<S>)
    where
        P: Drop,
        requires { Contains engine.old.store.pins self.stamp }
        ensures book { engine.new.book ≡ engine.old.book }
        ensures pins { Unpins self.stamp engine.old.store.pins engine.new.store.pins }
        ensures keeps { KeepsAs engine.new.store (record engine.old.store { pins = engine.new.store.pins }) }
        ensures live { live_rows engine.new.store ≡ live_rows engine.old.store }
        ensures pinned { (s : ℕ) → Contains engine.new.store.pins s → rows_at s engine.new.store.kept ≡ rows_at s engine.old.store.kept }
    {
        engine.unpin(self.stamp);
    }
}

impl<S: Shape, P: IdSelector> Session<S, P> {
    /// Visits at most `budget` more cells over the rows at the session's stamp, and says whether cells of its visit remain.
    /// The engine has to be the one that the session was opened over, whatever changed there since.
    pub fn step(&mut self, engine: &Engine<S>, budget: u32, meters: &mut Meters) -> Step
        requires can { CanGoOn S.widths engine.now self.old }
        requires meters { HaveRoom meters.old }
        ensures can { CanGoOn S.widths engine.now self.new }
        ensures same { SameQuestion self.old self.new }
        ensures visits { cells_given self.new ≡ cells_given self.old + min budget (cells_in_all engine.now.book (rows_at self.old.stamp engine.now.store.kept) self.old - cells_given self.old) }
        ensures ended { result ≡ (if self.new.ended then Step.Ended else Step.More) }
        ensures says { SaysWhether result (cells_given self.new) (cells_in_all engine.now.book (rows_at self.old.stamp engine.now.store.kept) self.old) }
        ensures full { meters.new.full + self.old.full ≡ meters.old.full + self.new.full }
        ensures pairs { (meters.old.pairs ≤ meters.new.pairs) × (meters.new.pairs + 2 * cells_given self.old ≤ meters.old.pairs + 2 * cells_given self.new) }
        ensures blocks { meters.new.blocks + block_count engine.now.store.kept (take (cells_given self.old) (cells_of self.old.parts.ranks)) ≤ meters.old.blocks + block_count engine.now.store.kept (take (cells_given self.new) (cells_of self.old.parts.ranks)) }
        ensures lanes { meters.new.lanes + block_count engine.now.store.kept (take (cells_given self.old) (cells_of self.old.parts.ranks)) ≤ meters.old.lanes + block_count engine.now.store.kept (take (cells_given self.new) (cells_of self.old.parts.ranks)) }
        ensures reads_never_fall { (meters.old.blocks ≤ meters.new.blocks) × (meters.old.lanes ≤ meters.new.lanes) }
        ensures others { (meters.new.half_full ≡ meters.old.half_full) × (meters.new.halves ≡ meters.old.halves) }
    {
        let all = engine.book().k0() * engine.book().k1();
        let stamp = self.stamp;
        let snapshot = Snapshot::new(engine.store(), stamp, &self.selector);
        // A count up to 0 counts nothing. It tells that the rows at the stamp are few.
        let _few = snapshot.count_up_to(0);
        let before = meters.full.count();
        let cells = self.scratch.go_on(&snapshot, self.needed, budget, meters);
        self.cells += cells;
        self.full += (meters.full.count() - before) as u32;
        self.ended = is_over(self.needed, self.scratch.rows(), self.cells, all);
        said(self.ended)
    }
}

/// What a step says.
fn said(ended: bool) -> Step
    ensures { result ≡ (if ended then Step.Ended else Step.More) }
{
    if ended { Step::Ended } else { Step::More }
}

/// Whether enough rows were visited, or all cells.
fn is_over(needed: u32, rows: u32, cells: u32, all: u32) -> bool
    ensures over { result ≡ true → (needed ≤ rows) ⊎ (cells ≡ all) }
    ensures goes_on { result ≡ false → (rows < needed) × (cells ≢ all) }
{
    needed <= rows || cells == all
}

/// Asks a query and begins its visit over the present rows, and answers how many of them it is to hold.
fn start<S: Shape, P: IdSelector>(
    engine: &Engine<S>,
    scratch: &mut Scratch<S>,
    query: &[u8],
    k: u32,
    wanted: u32,
    selector: &P,
    meters: &mut Meters,
) -> u32
    requires selector { P.can_pass selector.now }
    requires room { HasRoomFor engine.now.book scratch.old }
    requires query { length query.now ≡ engine.now.book.d }
    requires some { 1 ≤ k }
    requires few { k ≤ scratch.old.best.room }
    requires wanted { wanted ≤ 4194304 }
    requires pairs { meters.old.pairs ≤ 2 ^ 62 }
    ensures asked { StandsFor S.widths engine.now.book query.now scratch.new.ranks scratch.new.full }
    ensures visited { HasVisited S.widths (passing (P.ranges selector.now) (live_rows engine.now.store)) scratch.new }
    ensures none { scratch.new.walk.given ≡ 0 }
    ensures k { scratch.new.best.k ≡ k }
    ensures needed { result ≡ needed (query_of query.now k wanted (P.ranges selector.now)) (live_rows engine.now.store) }
    ensures few_needed { result ≤ 8388608 }
    ensures rows { scratch.new.state.rows ≡ 0 }
    ensures short { length query.now ≤ 1024 }
    ensures rose { (meters.old.pairs ≤ meters.new.pairs) × (meters.new.pairs ≤ meters.old.pairs + 1) }
    ensures others { meters.new ≡ record meters.old { pairs = meters.new.pairs } }
{
    let _d = engine.book().d();
    let store = engine.store();
    let snapshot = Snapshot::new(store, store.stamp(), selector);
    let needed = snapshot.count_up_to(wanted);
    scratch.ask(engine.book(), query);
    scratch.begin(k, meters);
    needed
}

/// The query with room behind it.
fn copied(query: &[u8]) -> [u8; 1024]
    requires { length query.now ≤ 1024 }
    ensures { take (length query.now) result ≡ query.now }
{
    let mut room = [0; 1024];
    room[..query.len()].copy_from_slice(query);
    room
}
