//! Scripts with sessions: what their lines say.
ghost use Rattle.std.specs.Prelude.{◌≡◌, ℕ, ◌+◌, ◌-◌, ◌<◌, ◌≤◌, ◌↔◌, ◌∷◌, List, length, slice_get, Some, Result, IfOk, IsTrue};
ghost use Rattle.play_script.specs.Gives.{Gives};
ghost use Rattle.play_script.specs.Spelling.{IsSessionSpelling, Says, FirstBad};
ghost use Rattle.play_script.specs.Grammar.{BadLine, lines_of, words_of};
ghost use Rattle.play_script.specs.SessionGrammar.{begin_of, step_of, end_of, session_line_of, session_command_of, session_outcome};
ghost use Rattle.play_script.specs.declared.SessionCommand.{SessionCommand};
ghost use Rattle.play_script.specs.declared.script.TheConstants.{MAX_BYTES, MAX_LINES};

use crate::SessionCommand;
use crate::script::{ScriptError, Spoken, all_commands, command};
use crate::words::{Words, number};
use std::alloc::Global;
use std::marker::Model;

/// The most sessions that may be open at a time.
pub const MAX_SESSIONS: u32 = 64;

/// The most cells of a step.
pub const MAX_STEP: u32 = 1_048_576;

/// The commands of a script with sessions, in order.
#[derive(Drop)]
pub struct SessionScript {
    commands: Vec<SessionCommand>,
}

impl Model for SessionScript {
    ghost use Rattle.std.specs.Prelude.{◌≤◌, List, vec_len};
    ghost use Rattle.play_script.specs.declared.SessionCommand.{SessionCommand};
    ghost use Rattle.play_script.specs.declared.script.TheConstants.{MAX_LINES};

    ghost Value = { List SessionCommand };

    ghost view = { λ script. script.commands.items };

    ghost invariant = { λ script. vec_len script.commands ≤ MAX_LINES };
}

impl SessionScript {
    /// The number of commands.
    pub fn len(&self) -> u32
        ensures { result ≡ length self.now }
    {
        self.commands.len() as u32
    }

    /// Whether there is no command.
    pub fn is_empty(&self) -> bool
        ensures { IsTrue result ↔ (length self.now ≡ 0) }
    {
        self.commands.is_empty()
    }

    /// The command number n, from 0 on.
    pub fn command(&self, n: u32) -> &SessionCommand
        requires { n < length self.now }
        ensures { slice_get self.now n ≡ Some result.now }
    {
        &self.commands[n as usize]
    }
}

fn begin(mut words: Words) -> Option<SessionCommand>
    ensures { result ≡ begin_of words.entry }
{
    let sid = words.next()?;
    let row = words.next()?;
    let k = words.next()?;
    let wanted = words.next()?;
    words.end()?;
    Some(SessionCommand::Begin {
        sid: number(sid)?,
        row: number(row)?,
        k: number(k)?,
        wanted: number(wanted)?,
    })
}

fn step(mut words: Words) -> Option<SessionCommand>
    ensures { result ≡ step_of words.entry }
{
    let sid = words.next()?;
    let cells = words.next()?;
    words.end()?;
    Some(SessionCommand::Step {
        sid: number(sid)?,
        cells: number(cells)?,
    })
}

fn end(mut words: Words) -> Option<SessionCommand>
    ensures { result ≡ end_of words.entry }
{
    let sid = words.next()?;
    words.end()?;
    Some(SessionCommand::End { sid: number(sid)? })
}

/// The command that a line of a session says, if it says one.
#[tactic(auto, unfolding(crate::specs::SessionGrammar::session_line_of))]
fn session_line(line: &[u8]) -> Option<SessionCommand>
    ensures { result ≡ session_line_of (words_of line.now) }
{
    let mut words = Words::of(line);
    match words.next()? {
        b"begin" => begin(words),
        b"step" => step(words),
        b"end" => end(words),
        _ => None,
    }
}

impl Spoken for SessionCommand {
    ghost said = { session_command_of };

    fn read(line: &[u8]) -> Option<SessionCommand> {
        match command(line) {
            Some(command) => Some(SessionCommand::Plain(command)),
            None => session_line(line),
        }
    }
}

#[tactic(auto, unfolding(crate::specs::SessionGrammar::session_outcome))]
fn script_of(alloc: Global, bytes: &[u8]) -> Result<SessionScript, ScriptError>
    ensures { Gives (λ script. script) result (session_outcome bytes.now) }
{
    let commands = all_commands(alloc, bytes)?;
    Ok(SessionScript { commands })
}

/// The commands that the bytes of a script with sessions say. What is refused, and in which order, is as for `parse`.
pub fn parse_sessions(alloc: Global, bytes: &[u8]) -> Result<SessionScript, ScriptError>
    ensures exact { Gives (λ script. script) result (session_outcome bytes.now) }

    // The lines that are not blank are the spellings of these commands, and no others are read.
    ensures spelled { IfOk result (λ script. Says IsSessionSpelling (lines_of bytes.now) script) }
    ensures only { (commands : List SessionCommand) → length bytes.now ≤ MAX_BYTES → length (lines_of bytes.now) ≤ MAX_LINES
        → Says IsSessionSpelling (lines_of bytes.now) commands → Gives (λ script. script) result (Ok commands) }

    // The line that is refused is the first that is neither blank nor a spelling.
    ensures malformed { (line : ℕ) → result ≡ Err (ScriptError.Malformed line) → (1 ≤ line) × FirstBad IsSessionSpelling (lines_of bytes.now) (line - 1) }
    ensures first_bad { (place : ℕ) → place < MAX_LINES → length bytes.now ≤ MAX_BYTES
        → FirstBad IsSessionSpelling (lines_of bytes.now) place → Gives (λ script. script) result (Err (BadLine (place + 1))) }
{
    script_of(alloc, bytes)
}
