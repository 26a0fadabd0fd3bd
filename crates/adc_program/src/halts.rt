//! Why a run halts before its last line.
use adc_inputs::Stop;
use adc_ports::Halt;
use play_script::Role;

/// Why a run halts before its last line.
#[derive(Debug, Clone, Copy, PartialEq, Eq)]
pub(crate) enum Halted {
    /// It stops, and the line that says so is still to be written.
    Stopped(Stop),
    /// Its output file could not be written, and the line that says so is still to be written.
    Unsaved(Role),
    /// A line of text could not be written.
    Unwritten(Halt),
}
