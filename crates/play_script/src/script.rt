//! Scripts: what their lines say.
ghost use Rattle.std.specs.Prelude.{◌≡◌, ℕ, ◌+◌, ◌-◌, ◌<◌, ◌≤◌, ◌↔◌, ◌∷◌, ◌==◌, List, length, slice_get, Option, Some, Result, IfOk, IfErr, IsTrue, vec_len, true};
ghost use Rattle.adc_ports.specs.declared.What.TheVariants.{Bytes, Lines};
ghost use Rattle.play_script.specs.Gives.{Fails, Gives, with_front};
ghost use Rattle.play_script.specs.Spelling.{IsSpelling, Says, FirstBad};
ghost use Rattle.play_script.specs.Grammar.{Fault, BadLine, is_blank as is_blank_line, line_outcome, lines_of, commands_from, outcome_by, script_outcome, command_of, insert_of, delete_of, put_of, query_of, ids_of, words_of};
ghost use Rattle.play_script.specs.declared.Command.{Command};
ghost use Rattle.play_script.specs.declared.script.ScriptError.TheVariants.{Memory};

use crate::Command;
use crate::words::{Words, cut, number};
use adc_ports::What;
use std::alloc::{AllocFailed, Global};
use std::marker::Model;

/// The most bytes of a script.
pub const MAX_BYTES: usize = 268_435_456;

/// The most lines of a script, comments and empty lines among them.
pub const MAX_LINES: u32 = 8_388_608;

/// Why bytes are no script.
#[derive(Debug, Clone, Copy, PartialEq, Eq)]
pub enum ScriptError {
    /// A line is outside the grammar: the number of the first such line, from 1 on.
    Malformed { line: u32 },
    /// A script of more than `MAX_BYTES` bytes, and how many it has; or of more than `MAX_LINES` lines, and the number of
    /// the first line too many.
    Limit { what: What, value: u64 },
    /// Memory ran out. This may happen for any bytes.
    Memory,
}

impl<T: Drop> From<AllocFailed<T>> for ScriptError {
    ghost from_gives = { λ _ e. e ≡ Memory };

    fn from(_e: AllocFailed<T>) -> ScriptError {
        ScriptError::Memory
    }
}

/// The commands of a script, in order.
#[derive(Drop)]
pub struct Script {
    commands: Vec<Command>,
}

impl Model for Script {
    ghost use Rattle.std.specs.Prelude.{◌≤◌, List, vec_len};
    ghost use Rattle.play_script.specs.declared.Command.{Command};
    ghost use Rattle.play_script.specs.declared.script.TheConstants.{MAX_LINES};

    ghost Value = { List Command };

    ghost view = { λ script. script.commands.items };

    ghost invariant = { λ script. vec_len script.commands ≤ MAX_LINES };
}

impl Script {
    /// The number of commands.
    pub fn len(&self) -> u32
        ensures { result ≡ length self.now }
    {
        self.commands.len() as u32
    }

    /// Whether there is no command.
    pub fn is_empty(&self) -> bool
        ensures { IsTrue result ↔ (length self.now ≡ 0) }
    {
        self.commands.is_empty()
    }

    /// The command number n, from 0 on.
    pub fn command(&self, n: u32) -> &Command
        requires { n < length self.now }
        ensures { slice_get self.now n ≡ Some result.now }
    {
        &self.commands[n as usize]
    }
}

fn insert(mut words: Words) -> Option<Command>
    ensures { result ≡ insert_of words.entry }
{
    let id = words.next()?;
    let row = words.next()?;
    words.end()?;
    Some(Command::Insert {
        id: number(id)?,
        row: number(row)?,
    })
}

fn delete(mut words: Words) -> Option<Command>
    ensures { result ≡ delete_of words.entry }
{
    let id = words.next()?;
    words.end()?;
    Some(Command::Delete { id: number(id)? })
}

fn put(mut words: Words) -> Option<Command>
    ensures { result ≡ put_of words.entry }
{
    let id = words.next()?;
    let row = words.next()?;
    words.end()?;
    Some(Command::Put {
        id: number(id)?,
        row: number(row)?,
    })
}

/// The least and the greatest id, if they stand there.
fn ids(mut words: Words) -> Option<Option<(u64, u64)>>
    ensures { result ≡ ids_of words.entry }
{
    let Some(word) = words.next() else {
        return Some(None);
    };
    let low = words.next()?;
    let high = words.next()?;
    words.end()?;
    let range = (number(low)?, number(high)?);
    match word {
        b"ids" => Some(Some(range)),
        _ => None,
    }
}

fn query(mut words: Words) -> Option<Command>
    ensures { result ≡ query_of words.entry }
{
    let row = words.next()?;
    let k = words.next()?;
    let wanted = words.next()?;
    Some(Command::Query {
        row: number(row)?,
        k: number(k)?,
        wanted: number(wanted)?,
        ids: ids(words)?,
    })
}

/// The command that a line says, if it says one.
#[tactic(auto, unfolding(crate::specs::Grammar::command_of))]
pub(crate) fn command(line: &[u8]) -> Option<Command>
    ensures { result ≡ command_of (words_of line.now) }
{
    let mut words = Words::of(line);
    match words.next()? {
        b"insert" => insert(words),
        b"delete" => delete(words),
        b"put" => put(words),
        b"query" => query(words),
        _ => None,
    }
}

/// A command that a line of a script may say.
pub(crate) trait Spoken: Drop {
    ghost said: { List (List ℕ) → Option Self };

    /// What the line says, if it says a command.
    fn read(line: &[u8]) -> Option<Self>
        ensures { result ≡ said (words_of line.now) };
}

impl Spoken for Command {
    ghost said = { command_of };

    fn read(line: &[u8]) -> Option<Command> {
        command(line)
    }
}

fn is_blank(line: &[u8]) -> bool
    ensures { result ≡ is_blank_line line.now }
{
    line.is_empty() || line[0] == b'#'
}

/// Adds the command of a line, unless the line is blank.
fn add<C: Spoken>(commands: &mut Vec<C>, line: &[u8], n: u32) -> Result<(), ScriptError>
    ensures ok { IfOk result (λ _. (rest : Result (List C) Fault) →
        with_front commands.old.items (line_outcome C.said n line.now rest) ≡ with_front commands.new.items rest) }
    ensures err { IfErr result (λ e. (rest : Result (List C) Fault) → Fails e (line_outcome C.said n line.now rest)) }
    ensures few { IfOk result (λ _. (n ≤ MAX_LINES) × (vec_len commands.new ≤ vec_len commands.old + 1)) }
{
    if n > MAX_LINES {
        return Err(ScriptError::Limit {
            what: What::Lines,
            value: u64::from(n),
        });
    }
    if is_blank(line) {
        return Ok(());
    }
    match C::read(line) {
        Some(command) => commands.push(command)?,
        None => return Err(ScriptError::Malformed { line: n }),
    }
    Ok(())
}

/// The first line, and what stands behind its end.
#[tactic(auto, using(crate::proofs::Cuts::first_line, crate::proofs::Cuts::last_line))]
fn first_line(bytes: &[u8]) -> (&[u8], &[u8])
    requires { 0 < length bytes.now }
    ensures lines { lines_of bytes.now ≡ result.0.now ∷ lines_of result.1.now }
    ensures shorter { length result.1.now < length bytes.now }
{
    let (line, rest) = cut(bytes, b'\n');
    match rest {
        Some(rest) => (line, rest),
        None => (line, &[]),
    }
}

fn commands_of<C: Spoken>(alloc: Global, bytes: &[u8]) -> Result<Vec<C>, ScriptError>
    ensures exact { Gives (λ commands. commands.items) result (commands_from C.said 1 (lines_of bytes.now)) }
    ensures few { IfOk result (λ commands. vec_len commands ≤ MAX_LINES) }
{
    let mut commands = Vec::new(alloc);
    let mut rest = bytes;
    let mut n = 1;
    while !rest.is_empty() {
        let (line, behind) = first_line(rest);
        add(&mut commands, line, n)?;
        rest = behind;
        n += 1;
    }
    Ok(commands)
}

/// The commands of a whole script.
pub(crate) fn all_commands<C: Spoken>(alloc: Global, bytes: &[u8]) -> Result<Vec<C>, ScriptError>
    ensures exact { Gives (λ commands. commands.items) result (outcome_by C.said bytes.now) }
    ensures few { IfOk result (λ commands. vec_len commands ≤ MAX_LINES) }
{
    if bytes.len() > MAX_BYTES {
        return Err(ScriptError::Limit {
            what: What::Bytes,
            value: bytes.len() as u64,
        });
    }
    commands_of(alloc, bytes)
}

#[tactic(auto, unfolding(crate::specs::Grammar::script_outcome))]
fn script_of(alloc: Global, bytes: &[u8]) -> Result<Script, ScriptError>
    ensures { Gives (λ script. script) result (script_outcome bytes.now) }
{
    let commands = all_commands(alloc, bytes)?;
    Ok(Script { commands })
}

/// The commands that the bytes of a script say. More bytes than `MAX_BYTES` are refused first; then the first line that is
/// outside the grammar, or comes after `MAX_LINES` others.
pub fn parse(alloc: Global, bytes: &[u8]) -> Result<Script, ScriptError>
    ensures exact { Gives (λ script. script) result (script_outcome bytes.now) }

    // The lines that are not blank are the spellings of these commands, and no others are read.
    ensures spelled { IfOk result (λ script. Says IsSpelling (lines_of bytes.now) script) }
    ensures only { (commands : List Command) → length bytes.now ≤ MAX_BYTES → length (lines_of bytes.now) ≤ MAX_LINES
        → Says IsSpelling (lines_of bytes.now) commands → Gives (λ script. script) result (Ok commands) }

    // The line that is refused is the first that is neither blank nor a spelling.
    ensures malformed { (line : ℕ) → result ≡ Err (ScriptError.Malformed line) → (1 ≤ line) × FirstBad IsSpelling (lines_of bytes.now) (line - 1) }
    ensures first_bad { (place : ℕ) → place < MAX_LINES → length bytes.now ≤ MAX_BYTES
        → FirstBad IsSpelling (lines_of bytes.now) place → Gives (λ script. script) result (Err (BadLine (place + 1))) }
{
    script_of(alloc, bytes)
}
