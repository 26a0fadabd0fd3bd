//! Laws over what words and files come to, each carried by a call that does nothing.
ghost use Rattle.adc_program.specs.Laws.{SamplesAreGood};

/// A sample is never a wrong input: its bytes spell a valid book, and its lines are printed by that book.
#[tactic(auto, using(crate::proofs::SampleVerdicts::samples_are_good))]
pub fn samples_are_good()
    ensures { SamplesAreGood }
{}
