//! What is wrong with an input, why a run stops with a line that says so, and the statuses of runs.
ghost use Rattle.std.specs.Prelude.{◌≡◌};
ghost use Rattle.adc_inputs.specs.Lines.{error_line, error_status, stop_line, stop_status};
ghost use Rattle.adc_inputs.specs.Causes.{stop_of_halt, stop_of_rows, stop_of_book, stop_of_script};

use adc_ports::{Halt, What};
use codebook_core::BookError;
use play_script::{
    Role, ScriptError, Text, stop_limit, stop_malformed, stop_malformed_line, stop_memory,
    stop_missing, stop_read,
};
use vec_files::VecError;

/// How a run ended. The process ends with the number of its status, 0 to 7 in this order.
#[derive(Debug, Clone, Copy, PartialEq, Eq)]
pub enum Status {
    Done,
    Usage,
    Malformed,
    Limit,
    ReadFault,
    WriteFault,
    Memory,
    Missing,
}

/// What is wrong with an input.
#[derive(Debug, Clone, Copy, PartialEq, Eq)]
pub enum InputError {
    /// It is not there.
    Missing(Role),
    /// Its first faulty field begins at this offset in bytes.
    Malformed { role: Role, at: u64 },
    /// The first line of a script outside the grammar, from 1 on.
    BadLine { line: u32 },
    /// A value of it is above a limit.
    Limit { role: Role, what: What, value: u64 },
}

/// Why a run stops with a line that says so.
#[derive(Debug, Clone, Copy, PartialEq, Eq)]
pub enum Stop {
    /// Something is wrong with an input.
    Input(InputError),
    /// An input could not be read.
    Unread(Role),
    /// An allocation was refused.
    OutOfMemory,
}

impl InputError {
    /// The line that tells of it.
    pub fn line(self) -> Text
        ensures { result ≡ error_line self }
    {
        match self {
            InputError::Missing(role) => stop_missing(role),
            InputError::Malformed { role, at } => stop_malformed(role, at),
            InputError::BadLine { line } => stop_malformed_line(line),
            InputError::Limit { role, what, value } => stop_limit(role, what, value),
        }
    }

    /// The status of a run with such an input.
    pub fn status(self) -> Status
        ensures { result ≡ error_status self }
    {
        match self {
            InputError::Missing(_) => Status::Missing,
            InputError::Malformed { .. } | InputError::BadLine { .. } => Status::Malformed,
            InputError::Limit { .. } => Status::Limit,
        }
    }
}

impl Stop {
    /// The line that tells of it.
    pub fn line(self) -> Text
        ensures { result ≡ stop_line self }
    {
        match self {
            Stop::Input(error) => error.line(),
            Stop::Unread(role) => stop_read(role),
            Stop::OutOfMemory => stop_memory(),
        }
    }

    /// The status of a run that it ends.
    pub fn status(self) -> Status
        ensures { result ≡ stop_status self }
    {
        match self {
            Stop::Input(error) => error.status(),
            Stop::Unread(_) => Status::ReadFault,
            Stop::OutOfMemory => Status::Memory,
        }
    }
}

/// The stop of a call on the shelf that halted.
pub(crate) fn of_halt(role: Role, halt: Halt) -> Stop
    ensures { result ≡ stop_of_halt role halt }
{
    match halt {
        Halt::Failed => Stop::Unread(role),
        Halt::Memory => Stop::OutOfMemory,
    }
}

/// The stop of a refused file of rows.
pub fn of_rows(role: Role, error: VecError) -> Stop
    ensures { result ≡ stop_of_rows role error }
{
    match error {
        VecError::Missing => Stop::Input(InputError::Missing(role)),
        VecError::Malformed { at } => Stop::Input(InputError::Malformed { role, at }),
        VecError::Limit { what, value } => Stop::Input(InputError::Limit { role, what, value }),
        VecError::ReadFault => Stop::Unread(role),
        VecError::Memory => Stop::OutOfMemory,
    }
}

/// The stop of a refused book.
pub(crate) fn of_book(error: BookError) -> Stop
    ensures { result ≡ stop_of_book error }
{
    let role = Role::Book;
    match error {
        BookError::Malformed { at } => Stop::Input(InputError::Malformed { role, at }),
        BookError::Limit { what, value } => Stop::Input(InputError::Limit { role, what, value }),
        BookError::Memory => Stop::OutOfMemory,
    }
}

/// The stop of a refused script.
pub(crate) fn of_script(error: ScriptError) -> Stop
    ensures { result ≡ stop_of_script error }
{
    let role = Role::Script;
    match error {
        ScriptError::Malformed { line } => Stop::Input(InputError::BadLine { line }),
        ScriptError::Limit { what, value } => Stop::Input(InputError::Limit { role, what, value }),
        ScriptError::Memory => Stop::OutOfMemory,
    }
}
