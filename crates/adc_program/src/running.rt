//! A run: the job that the words ask for, and how it ends.
ghost use Rattle.std.specs.Prelude.{◌≡◌, ◌≢◌, ◌^◌, ◌⊎◌, map, None, string_bytes};
ghost use Rattle.std.specs.Option.{ForSome};
ghost use Rattle.adc_ports.specs.Files.{Rose};
ghost use Rattle.adc_ports.specs.States.{OnlyReads, OnlyPuts};
ghost use Rattle.adc_inputs.specs.declared.stop.Status.TheVariants as status;
ghost use Rattle.adc_inputs.specs.Words.{job_of, out_name};
ghost use Rattle.adc_inputs.specs.Jobs.{job_seen};
ghost use Rattle.adc_program.specs.Outputs.{file_of, counts_of_verdict};
ghost use Rattle.adc_program.specs.Verdict.{verdict, verdict_residuals};
ghost use Rattle.adc_program.specs.Played.{AreUpTo};
ghost use Rattle.adc_program.specs.Residuals.{ResidualWorks, metered_of_residual};
ghost use Rattle.adc_program.specs.Ends.{out_of_memory, Tells, Wrote, Comes, NothingFails, IsWhole, HasFile, HasFront};
ghost use Rattle.adc_program.specs.Steps.{ChangesAtMost};
ghost use Rattle.adc_program.specs.Work.{Works, AreEarly};

use crate::halts::Halted;
use crate::performing::perform;
use adc_inputs::Status;
use adc_ports::{Halt, Shelf, Sink};
use play_script::{Text, stop_usage, stop_write};
use query_engine::Meters;
use std::alloc::Global;

/// The status of a run whose stop line ran out of memory as it was put: a fault of the shelf keeps its own.
fn without_memory(goes: Status) -> Status
    ensures { result ≡ out_of_memory goes }
{
    match goes {
        Status::ReadFault => Status::ReadFault,
        Status::WriteFault => Status::WriteFault,
        _ => Status::Memory,
    }
}

/// Writes a stop line, and returns the status that goes with it. A line that could not be written changes it only if memory
/// ran out, and then only where it is no fault.
fn tell<K: Sink>(out: &mut K, line: &Text, goes: Status) -> Status
    ensures puts { OnlyPuts (K.state out.old) (K.state out.new) }
    ensures goes { (result ≡ goes) ⊎ (result ≡ status.Memory) }
    ensures tells { Tells result line.now goes (K.state out.old) (K.state out.new) }
{
    match out.put(line.bytes()) {
        Ok(()) => goes,
        Err(Halt::Failed) => goes,
        Err(Halt::Memory) => without_memory(goes),
    }
}

/// Runs the program: the words are the command line without the program's name. The shelf has the files, and the text
/// goes to the sink, a line a call. The meters count the work of the queries.
///
/// - `play BOOK BASE QUERIES SCRIPT` plays a script over an engine without rows.
/// - `sessions BOOK BASE QUERIES SCRIPT` plays a script with query sessions over one.
/// - `residual BOOK BASE QUERIES SCRIPT CACHE` plays a script by residual codes, with room for the tables of CACHE halves.
/// - `sample START N` makes a book, N rows and 16 queries, and prints what the queries find.
/// - `info INDEX` prints the numbers of an index.
/// - `build BOOK BASE INDEX` writes the index of the rows of a base, each with its number as its id.
/// - `upgrade OLD NEW` writes an index of either version as version 2.
/// - `search INDEX QUERIES K WANTED OUT` asks each query of an index, and writes the ids of the answers.
/// - `allowed INDEX QUERIES K WANTED ALLOW OUT` does so among the ids of a list.
/// - `rerank INDEX BASE QUERIES R K WANTED OUT` asks each query of an index for R ids, and writes the K whose base rows are nearest.
/// - `radius INDEX QUERIES R WANTED` prints the visited rows of an index within a squared distance of each query.
/// - `exact BASE QUERIES K OUT` writes the numbers of the K nearest rows of a base for each query.
/// - `recall FOUND TRUTH K` prints for how many queries the nearest neighbour is among the first K that were found.
pub fn run<H: Shelf, K: Sink>(
    alloc: Global,
    words: &[String],
    shelf: &mut H,
    out: &mut K,
    meters: &mut Meters,
    residual: &mut Meters,
) -> Status
    requires meters { AreEarly meters.old }
    requires residual { AreUpTo (2 ^ 61) (metered_of_residual residual.old) }
    // The headline. If shelf and sink tell their bytes, no count of faults rises and memory is not refused, the text, the
    // output file and the status are the defined ones.
    ensures whole { ForSome (H.state shelf.old).files (λ files. NothingFails (H.state shelf.old) (H.state shelf.new) (K.state out.old) (K.state out.new) → result ≢ status.Memory
        → IsWhole result (verdict (map string_bytes words.now) files) (H.state shelf.new) (K.state out.old) (K.state out.new)) }
    // Each status has its cause.
    ensures comes { ForSome (H.state shelf.old).files (λ files. Comes result (verdict (map string_bytes words.now) files)) }
    ensures unread { result ≡ status.ReadFault → Rose (H.state shelf.old).read_faults (H.state shelf.new).read_faults }
    ensures unwritten { result ≡ status.WriteFault → Rose (K.state out.old).faults (K.state out.new).faults ⊎ Rose (H.state shelf.old).write_faults (H.state shelf.new).write_faults }
    // After a fault too, what was written is the first of what was to be.
    ensures wrote { ForSome (H.state shelf.old).files (λ files. Wrote result (verdict (map string_bytes words.now) files) (H.state shelf.old) (H.state shelf.new) (K.state out.old) (K.state out.new)) }
    // The output file is the defined one at the end, and before it as it was or the first bytes of the defined one.
    ensures done { ForSome (H.state shelf.old).files (λ files. result ≡ status.Done → HasFile (file_of (verdict (map string_bytes words.now) files)) (H.state shelf.new)) }
    ensures front { ForSome (H.state shelf.old).files (λ files. result ≢ status.Done → HasFront (file_of (verdict (map string_bytes words.now) files)) files (H.state shelf.new)) }
    // All other files stay. If the words name no output or there is none to write, all files stay.
    ensures changes { ChangesAtMost (out_name (map string_bytes words.now)) (H.state shelf.old) (H.state shelf.new) }
    ensures stays { ForSome (H.state shelf.old).files (λ files. file_of (verdict (map string_bytes words.now) files) ≡ None → OnlyReads (H.state shelf.old) (H.state shelf.new)) }
    // Usage comes exactly if the words fit no command, whatever the shelf tells. No file is then touched.
    ensures usage { job_of (map string_bytes words.now) ≡ None → (result ≡ status.Usage) ⊎ (result ≡ status.Memory) }
    ensures usage_only { result ≡ status.Usage → job_of (map string_bytes words.now) ≡ None }
    ensures untouched { job_of (map string_bytes words.now) ≡ None → shelf.new ≡ shelf.old }
    // The work of a run that is done: a full distance for each full row that its query lines tell, and at most two sums for
    // each visited cell and one more for each query.
    ensures works { ForSome (H.state shelf.old).files (λ files. result ≡ status.Done → Works (counts_of_verdict (verdict (map string_bytes words.now) files)) meters.old meters.new) }
    // The same of residual queries, each of which computed exactly the tables of halves that a cache of CACHE tables misses.
    ensures residuals { ForSome (H.state shelf.old).files (λ files. result ≡ status.Done → ResidualWorks (verdict_residuals (map string_bytes words.now) files) residual.old residual.new) }
    ensures puts { OnlyPuts (K.state out.old) (K.state out.new) }
{
    let job = match adc_inputs::job_of(words) {
        Some(job) => job,
        None => return tell(out, &stop_usage(), Status::Usage),
    };
    match perform(alloc, &job, shelf, out, meters, residual) {
        Ok(()) => Status::Done,
        Err(Halted::Stopped(stop)) => tell(out, &stop.line(), stop.status()),
        Err(Halted::Unsaved(role)) => tell(out, &stop_write(role), Status::WriteFault),
        Err(Halted::Unwritten(Halt::Failed)) => Status::WriteFault,
        Err(Halted::Unwritten(Halt::Memory)) => Status::Memory,
    }
}
