//! Lines of text, each put by one call.
ghost use Rattle.std.specs.Prelude.{[], ◌∷◌};
ghost use Rattle.adc_program.specs.Steps.{Puts};

use crate::halts::Halted;
use adc_ports::Sink;
use play_script::Text;

/// Writes a line.
#[tactic(auto, using(crate::proofs::Writing::line_put, crate::proofs::Writing::line_cut))]
pub(crate) fn write_line<K: Sink>(out: &mut K, line: &Text) -> Result<(), Halted>
    ensures puts { Puts result (line.now ∷ []) (K.state out.old) (K.state out.new) }
{
    match out.put(line.bytes()) {
        Ok(()) => Ok(()),
        Err(halt) => Err(Halted::Unwritten(halt)),
    }
}
