//! Playing a script with sessions: the lines of its commands in order, each asked of the changes and sessions that those before it left.
ghost use Rattle.std.specs.Prelude.{◌≡◌, ℕ, ◌+◌, ◌^◌, ◌<◌, ◌≤◌, ◌*◌, [], ◌∷◌, map, length, Ok, None, OnOk, IfOk, slice_index_or};
ghost use Rattle.std.specs.Option.{ForSome};
ghost use Rattle.adc_ports.specs.Files.{Files};
ghost use Rattle.query_engine.specs.Report.{HaveRoom};
ghost use Rattle.play_script.specs.declared.SessionCommand.TheVariants.{Plain, Begin};
ghost use Rattle.play_script.specs.Sessions.{Standing, session_reply, session_replies, session_play, session_counts, no_changes};
ghost use Rattle.adc_inputs.specs.Steps.{Reads, nothing_wrong};
ghost use Rattle.adc_program.specs.Steps.{Plays};
ghost use Rattle.adc_program.specs.Stages.{stage_of, ArePlayed};
ghost use Rattle.adc_program.specs.Work.{Works, IsPlain, IsFarFromEnd, AreEarly, RiseLittle};
ghost use Rattle.cell_store.specs.State.{empty};
ghost use Rattle.adc_program.specs.Queries.{begin_line_cause};
ghost use Rattle.adc_program.specs.SessionStates.{AreOpen, StandsAs, IsNext};

use crate::MAX_LIVE;
use crate::coded::CodeEngine;
use crate::halts::Halted;
use crate::lines::write_line;
use crate::opened::{HeldSession, Question, open_session, place_of};
use crate::play::{answer, query_cause};
use crate::player::Inputs;
use crate::stepping::{end, step};
use adc_inputs::{Stop, fetch_row};
use adc_ports::{Memory, Shelf, Sink};
use play_script::{
    Cause, Command, MAX_SESSIONS, SessionCommand, SessionScript, Text, begin_refused, end_line,
};
use query_engine::Meters;
use shape_core::Shape;
use std::alloc::Global;

/// A play with sessions: an engine, the inputs, room for one of their rows, and the open sessions.
#[derive(Drop)]
pub(crate) struct SessionPlayer<'a, S: Shape> {
    pub engine: CodeEngine<S>,
    pub inputs: Inputs<'a>,
    pub row: Vec<u8>,
    pub held: Vec<HeldSession<S>>,
    ghost base: { inputs.base.checked.d ≡ engine.engine.book.d },
    ghost queries: { inputs.queries.checked.d ≡ engine.engine.book.d },
    ghost room: { length row.items ≡ engine.engine.book.d },
}

/// What a `begin` line asks: the number of its session, the number of its row, k, and how many rows are wanted.
#[derive(Clone, Copy)]
struct Begun {
    sid: u64,
    number: u64,
    k: u64,
    wanted: u64,
}

impl<S: Shape> SessionPlayer<'_, S> {
    /// The reply to a line of a play.
    fn plain<H: Shelf, K: Sink>(
        &mut self,
        shelf: &mut H,
        out: &mut K,
        command: &Command,
        meters: &mut Meters,
    ) -> Result<(), Halted>
        requires far { IsFarFromEnd self.old.engine.engine.store meters.old }
        requires open { AreOpen S.widths self.old.engine.engine self.old.held.items }
        requires check { ForSome (H.state shelf.old).files (λ files. ArePlayed files self.old.engine.engine.book.d self.old.inputs) }
        ensures book { self.new.engine.engine.book ≡ self.old.engine.engine.book }
        ensures inputs { self.new.inputs ≡ self.old.inputs }
        ensures open { AreOpen S.widths self.new.engine.engine self.new.held.items }
        ensures little { RiseLittle 1 self.old.engine.engine.store self.new.engine.engine.store meters.old meters.new }
        ensures plays { (standing : Files → Standing) → ForSome (H.state shelf.old).files (λ files. StandsAs (stage_of files self.old.inputs self.old.engine.engine.book) (standing files) self.old.engine.engine.store self.old.held.items)
            → Plays result (λ files. Ok (session_reply (stage_of files self.old.inputs self.old.engine.engine.book) (standing files) (Plain command.now)).lines) (H.state shelf.old) (H.state shelf.new) (K.state out.old) (K.state out.new) }
        ensures next { (standing : Standing) → ForSome (H.state shelf.old).files (λ files. StandsAs (stage_of files self.old.inputs self.old.engine.engine.book) standing self.old.engine.engine.store self.old.held.items
            → OnOk result (IsNext (stage_of files self.old.inputs self.old.engine.engine.book) standing (session_reply (stage_of files self.old.inputs self.old.engine.engine.book) standing (Plain command.now)) self.new.engine.engine.store self.new.held.items meters.old meters.new)) }
    {
        // The store tells what holds of every store.
        let _stamp = self.engine.engine.store().stamp();
        answer(
            &mut self.engine,
            &self.inputs,
            &mut self.row,
            shelf,
            out,
            command,
            meters,
        )
    }

    /// Why a `begin` line is refused, if it is.
    fn begin_cause(&self, asked: Begun) -> Option<Cause>
        ensures { result ≡ begin_line_cause self.now.inputs.queries.checked.rows (map (λ h. h.sid) self.now.held.items) asked.sid asked.number asked.k asked.wanted }
    {
        let rows = self.inputs.queries.checked.rows;
        if let Some(cause) = query_cause(rows, asked.number, asked.k, asked.wanted) {
            return Some(cause);
        }
        if place_of(&self.held, asked.sid).is_some() {
            return Some(Cause::Taken);
        }
        if self.held.len() >= MAX_SESSIONS as usize {
            return Some(Cause::Sessions);
        }
        None
    }

    /// The line of a `begin`.
    fn begin<H: Shelf>(
        &mut self,
        alloc: Global,
        shelf: &mut H,
        asked: Begun,
        meters: &mut Meters,
    ) -> Result<Text, Stop>
        requires meters { HaveRoom meters.old }
        requires open { AreOpen S.widths self.old.engine.engine self.old.held.items }
        requires check { ForSome (H.state shelf.old).files (λ files. ArePlayed files self.old.engine.engine.book.d self.old.inputs) }
        ensures book { self.new.engine.engine.book ≡ self.old.engine.engine.book }
        ensures inputs { self.new.inputs ≡ self.old.inputs }
        ensures open { OnOk result (AreOpen S.widths self.new.engine.engine self.new.held.items) }
        ensures little { RiseLittle 1 self.old.engine.engine.store self.new.engine.engine.store meters.old meters.new }
        ensures line { (standing : Files → Standing) → ForSome (H.state shelf.old).files (λ files. StandsAs (stage_of files self.old.inputs self.old.engine.engine.book) (standing files) self.old.engine.engine.store self.old.held.items)
            → Reads result (λ files line. ((session_reply (stage_of files self.old.inputs self.old.engine.engine.book) (standing files) (Begin asked.sid asked.number asked.k asked.wanted)).lines ≡ line ∷ [])
            × IsNext (stage_of files self.old.inputs self.old.engine.engine.book) (standing files) (session_reply (stage_of files self.old.inputs self.old.engine.engine.book) (standing files) (Begin asked.sid asked.number asked.k asked.wanted)) self.new.engine.engine.store self.new.held.items meters.old meters.new) nothing_wrong (H.state shelf.old) (H.state shelf.new) }
    {
        if let Some(cause) = self.begin_cause(asked) {
            return Ok(begin_refused(asked.sid, cause));
        }
        // The store tells what holds of every store.
        let _stamp = self.engine.engine.store().stamp();
        match fetch_row(shelf, &self.inputs.queries, asked.number, &mut self.row) {
            Err(stop) => Err(stop),
            Ok(()) => {
                let question = Question {
                    sid: asked.sid,
                    k: asked.k as u32,
                    wanted: asked.wanted as u32,
                };
                let coded = &mut self.engine;
                match open_session(
                    alloc,
                    &mut coded.engine,
                    &mut self.held,
                    question,
                    &self.row,
                    meters,
                ) {
                    Ok(line) => Ok(line),
                    Err(Memory) => Err(Stop::OutOfMemory),
                }
            }
        }
    }

    /// The reply to a command: its lines are written, and engine and open sessions are those that it leaves.
    fn answer<H: Shelf, K: Sink>(
        &mut self,
        alloc: Global,
        shelf: &mut H,
        out: &mut K,
        command: &SessionCommand,
        meters: &mut Meters,
    ) -> Result<(), Halted>
        requires far { IsFarFromEnd self.old.engine.engine.store meters.old }
        requires open { AreOpen S.widths self.old.engine.engine self.old.held.items }
        requires check { ForSome (H.state shelf.old).files (λ files. ArePlayed files self.old.engine.engine.book.d self.old.inputs) }
        ensures book { self.new.engine.engine.book ≡ self.old.engine.engine.book }
        ensures inputs { self.new.inputs ≡ self.old.inputs }
        ensures open { OnOk result (AreOpen S.widths self.new.engine.engine self.new.held.items) }
        ensures little { RiseLittle 1 self.old.engine.engine.store self.new.engine.engine.store meters.old meters.new }
        ensures plays { (standing : Files → Standing) → ForSome (H.state shelf.old).files (λ files. StandsAs (stage_of files self.old.inputs self.old.engine.engine.book) (standing files) self.old.engine.engine.store self.old.held.items)
            → Plays result (λ files. Ok (session_reply (stage_of files self.old.inputs self.old.engine.engine.book) (standing files) command.now).lines) (H.state shelf.old) (H.state shelf.new) (K.state out.old) (K.state out.new) }
        ensures next { (standing : Standing) → ForSome (H.state shelf.old).files (λ files. StandsAs (stage_of files self.old.inputs self.old.engine.engine.book) standing self.old.engine.engine.store self.old.held.items
            → OnOk result (IsNext (stage_of files self.old.inputs self.old.engine.engine.book) standing (session_reply (stage_of files self.old.inputs self.old.engine.engine.book) standing command.now) self.new.engine.engine.store self.new.held.items meters.old meters.new)) }
    {
        match *command {
            SessionCommand::Plain(command) => self.plain(shelf, out, &command, meters),
            SessionCommand::Begin {
                sid,
                row: number,
                k,
                wanted,
            } => {
                let asked = Begun {
                    sid,
                    number,
                    k,
                    wanted,
                };
                match self.begin(alloc, shelf, asked, meters) {
                    Ok(line) => write_line(out, &line),
                    Err(stop) => Err(Halted::Stopped(stop)),
                }
            }
            SessionCommand::Step { sid, cells } => {
                let coded = &self.engine;
                let line = step(&coded.engine, &mut self.held, sid, cells, meters);
                write_line(out, &line)
            }
            SessionCommand::End { sid } => {
                let coded = &mut self.engine;
                end(&mut coded.engine, &mut self.held, out, sid)
            }
        }
    }

    /// The replies to the commands of a script, in order, from no changes and no sessions on.
    fn answer_all<H: Shelf, K: Sink>(
        &mut self,
        alloc: Global,
        shelf: &mut H,
        out: &mut K,
        script: &SessionScript,
        meters: &mut Meters,
    ) -> Result<(), Halted>
        requires stamp { self.old.engine.engine.store.stamp ≤ 2 ^ 61 }
        requires meters { AreEarly meters.old }
        requires open { AreOpen S.widths self.old.engine.engine self.old.held.items }
        requires stands { ForSome (H.state shelf.old).files (λ files. StandsAs (stage_of files self.old.inputs self.old.engine.engine.book) no_changes self.old.engine.engine.store self.old.held.items) }
        requires check { ForSome (H.state shelf.old).files (λ files. ArePlayed files self.old.engine.engine.book.d self.old.inputs) }
        ensures plays { Plays result (λ files. Ok (session_replies (stage_of files self.old.inputs self.old.engine.engine.book) no_changes script.now).lines) (H.state shelf.old) (H.state shelf.new) (K.state out.old) (K.state out.new) }
        ensures next { ForSome (H.state shelf.old).files (λ files. OnOk result (IsNext (stage_of files self.old.inputs self.old.engine.engine.book) no_changes (session_replies (stage_of files self.old.inputs self.old.engine.engine.book) no_changes script.now) self.new.engine.engine.store self.new.held.items meters.old meters.new)) }
    {
        for n in 0..script.len() {
            match self.answer(alloc, shelf, out, script.command(n), meters) {
                Ok(()) => {}
                Err(halted) => return Err(halted),
            }
        }
        Ok(())
    }

    /// The text of a script with sessions from no changes and no sessions on: the replies, and the end line.
    pub(crate) fn play<H: Shelf, K: Sink>(
        &mut self,
        alloc: Global,
        shelf: &mut H,
        out: &mut K,
        script: &SessionScript,
        meters: &mut Meters,
    ) -> Result<(), Halted>
        requires fresh { self.old.engine.engine.store ≡ empty self.old.engine.engine.book.g (self.old.engine.engine.book.k0 * self.old.engine.engine.book.k1) MAX_LIVE }
        requires none { self.old.held.items ≡ [] }
        requires meters { AreEarly meters.old }
        requires check { ForSome (H.state shelf.old).files (λ files. ArePlayed files self.old.engine.engine.book.d self.old.inputs) }
        ensures plays { Plays result (λ files. Ok (session_play (stage_of files self.old.inputs self.old.engine.engine.book) script.now)) (H.state shelf.old) (H.state shelf.new) (K.state out.old) (K.state out.new) }
        ensures works { ForSome (H.state shelf.old).files (λ files. OnOk result (Works (session_counts (stage_of files self.old.inputs self.old.engine.engine.book) script.now) meters.old meters.new)) }
    {
        match self.answer_all(alloc, shelf, out, script, meters) {
            Ok(()) => {
                let store = self.engine.engine.store();
                // The store tells what holds of every store.
                let _stamp = store.stamp();
                write_line(out, &end_line(script.len(), store.live()))
            }
            Err(halted) => Err(halted),
        }
    }
}
