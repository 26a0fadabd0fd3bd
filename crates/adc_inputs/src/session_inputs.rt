//! The script with sessions of an input.
ghost use Rattle.play_script.specs.SessionGrammar.{session_outcome};
ghost use Rattle.adc_inputs.specs.Inputs.{of_script};
ghost use Rattle.adc_inputs.specs.SessionInputs.{session_input};
ghost use Rattle.adc_inputs.specs.Steps.{Decodes, Finds};

use crate::inputs::{MAX_SCRIPT, whole_input};
use crate::stop::{Stop, of_script};
use adc_ports::Shelf;
use play_script::{Role, SessionScript, parse_sessions};
use std::alloc::Global;

/// The script with sessions of an input.
///
/// # Errors
/// `Input` if it is not there, at its first bad line or above a limit, `Unread` if a read of the shelf failed, `OutOfMemory`.
pub fn read_sessions<H: Shelf>(
    alloc: Global,
    shelf: &mut H,
    name: &str,
) -> Result<SessionScript, Stop>
    ensures reads { Finds (λ script. script) result (λ files. session_input files name.now) (H.state shelf.old) (H.state shelf.new) }
{
    match whole_input(alloc, shelf, Role::Script, name, MAX_SCRIPT) {
        Ok(bytes) => sessions_in(alloc, &bytes),
        Err(stop) => Err(stop),
    }
}

/// The script with sessions that bytes spell.
fn sessions_in(alloc: Global, bytes: &[u8]) -> Result<SessionScript, Stop>
    ensures { Decodes (λ script. script) result (of_script (session_outcome bytes.now)) }
{
    match parse_sessions(alloc, bytes) {
        Ok(script) => Ok(script),
        Err(error) => Err(of_script(error)),
    }
}
