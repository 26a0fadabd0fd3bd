//! The command adc: gives the program its words, the files of the system and standard output, and ends with the number of
//! its status.
#![tactic(auto)]

ghost use Rattle.std.specs.Prelude.{◌≡◌, ◌≢◌, Err, IsOk};
ghost use Rattle.std.specs.IoError.{error_kind};
ghost use Rattle.adc_inputs.specs.declared.stop.Status.TheVariants as of;

use adc_ports::{FileShelf, Halt, StdSink};
use adc_program::{Status, run};
use query_engine::Meters;
use std::alloc::Global;
use std::env::{self, Args};
use std::io::{self, ErrorKind, IsTerminal};
use std::os::fd::AsFd;
use std::process::ExitCode;

/// The system's number for the error that a descriptor is closed.
const CLOSED: i32 = 9;

/// The number of a status.
fn number(status: Status) -> u8
    ensures done { status ≡ of.Done → result ≡ 0 }
    ensures usage { status ≡ of.Usage → result ≡ 1 }
    ensures malformed { status ≡ of.Malformed → result ≡ 2 }
    ensures limit { status ≡ of.Limit → result ≡ 3 }
    ensures unread { status ≡ of.ReadFault → result ≡ 4 }
    ensures unwritten { status ≡ of.WriteFault → result ≡ 5 }
    ensures memory { status ≡ of.Memory → result ≡ 6 }
    ensures missing { status ≡ of.Missing → result ≡ 7 }
{
    match status {
        Status::Done => 0,
        Status::Usage => 1,
        Status::Malformed => 2,
        Status::Limit => 3,
        Status::ReadFault => 4,
        Status::WriteFault => 5,
        Status::Memory => 6,
        Status::Missing => 7,
    }
}

/// The number if the system does not give the words: running out of memory has its own.
fn wordless(error: &io::Error) -> u8
    ensures memory { error_kind error.now ≡ ErrorKind.OutOfMemory → result ≡ 6 }
    ensures other { error_kind error.now ≢ ErrorKind.OutOfMemory → result ≡ 8 }
{
    match error.kind() {
        ErrorKind::OutOfMemory => 6,
        _ => 8,
    }
}

/// The status of a run when the text that was kept is written, or could not be: that is a fault of a run that was done, and
/// changes no other status.
fn ended(status: Status, flushed: Result<(), Halt>) -> Status
    ensures written { IsOk flushed → result ≡ status }
    ensures stopped { status ≢ of.Done → result ≡ status }
    ensures lost { status ≡ of.Done → flushed ≡ Err Halt.Failed → result ≡ of.WriteFault }
    ensures memory { status ≡ of.Done → flushed ≡ Err Halt.Memory → result ≡ of.Memory }
{
    match (status, flushed) {
        (Status::Done, Err(Halt::Failed)) => Status::WriteFault,
        (Status::Done, Err(Halt::Memory)) => Status::Memory,
        _ => status,
    }
}

/// The words without the program's name.
fn without_name(alloc: Global, mut words: Args) -> io::Result<Vec<String>> {
    let mut list = Vec::new(alloc);
    let _name = words.next();
    for word in words {
        list.push(word)?;
    }
    Ok(list)
}

/// Whether a stream is closed. A file that is opened then could get its descriptor.
fn is_closed(stream: &impl AsFd) -> bool {
    match stream.as_fd().try_clone_to_owned() {
        Ok(_) => false,
        Err(error) => error.raw_os_error() == Some(CLOSED),
    }
}

/// Runs the program over the files of the system and standard output.
fn run_words(rt: &HostRuntime, words: &[String]) -> Status {
    let mut shelf = FileShelf::new(rt.alloc(), rt);
    let at_once = rt.stdout().is_terminal();
    let mut out = StdSink::new(rt.alloc(), io::writer(rt), at_once);
    let mut meters = Meters::new(rt.alloc());
    let mut residual = Meters::new(rt.alloc());
    let status = run(
        rt.alloc(),
        words,
        &mut shelf,
        &mut out,
        &mut meters,
        &mut residual,
    );
    ended(status, out.flush())
}

/// With standard output closed no text can be written: a write fault, and no file is opened.
fn main(rt: HostRuntime) -> ExitCode {
    if is_closed(&rt.stdout()) {
        return ExitCode::from(number(Status::WriteFault));
    }
    let words = match env::args(&rt) {
        Ok(words) => without_name(rt.alloc(), words),
        Err(error) => Err(error),
    };
    match words {
        Ok(words) => ExitCode::from(number(run_words(&rt, &words))),
        Err(error) => ExitCode::from(wordless(&error)),
    }
}
