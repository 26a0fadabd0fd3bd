//! The names that were opened to read, and which files of the system they led to.
ghost use Rattle.std.specs.Prelude.{◌≡◌, ◌++◌, [], ◌∷◌, OnOk, OnErr, string_bytes};
ghost use Rattle.std.specs.List.{list_any};
ghost use Rattle.adc_ports.specs.Opening.{OpenedName, is_other};

use std::alloc::Global;
use std::fs::Metadata;
use std::io;
use std::marker::Model;
use std::os::unix::fs::MetadataExt;

/// A file of the system: the number of its device, and its own number there.
#[derive(Clone, Copy)]
pub struct FileId {
    device: u64,
    number: u64,
}

impl FileId {
    /// The file that this is said of; none where its number is not given.
    pub fn of(about: &Metadata) -> Option<FileId> {
        if about.ino() == 0 {
            return None;
        }
        Some(FileId {
            device: about.dev(),
            number: about.ino(),
        })
    }
}

/// A name that was opened to read, and the file that it led to.
#[derive(Drop)]
struct Input {
    name: String,
    file: FileId,
}

/// The names that were opened to read.
#[derive(Drop)]
pub struct Inputs {
    list: Vec<Input>,
    alloc: Global,
}

impl Model for Inputs {
    ghost use Rattle.std.specs.Prelude.{List, map, string_bytes};
    ghost use Rattle.adc_ports.specs.Opening.{OpenedName};

    ghost Value = { List OpenedName };

    ghost view = { λ s. map (λ i. record { name = string_bytes i.name; device = i.file.device; number = i.file.number }) s.list.items };
}

impl Inputs {
    /// No name was opened.
    pub fn new(alloc: Global) -> Inputs
        ensures { result ≡ [] }
    {
        Inputs {
            list: Vec::new(alloc),
            alloc,
        }
    }

    /// Notes that a name led to this file.
    pub fn add(&mut self, name: &str, file: FileId) -> io::Result<()>
        ensures ok { OnOk result (self.new ≡ self.old ++ record { name = name.now; device = file.device; number = file.number } ∷ []) }
        ensures err { OnErr result (self.new ≡ self.old) }
    {
        let name = String::from_str(self.alloc, name)?;
        self.list.push(Input { name, file })?;
        Ok(())
    }

    /// Whether another name led to this file.
    #[tactic(auto, using(crate::proofs::StepLemmas::any_of_map))]
    pub fn has_other(&self, name: &str, file: FileId) -> bool
        ensures { result ≡ list_any (λ n. is_other n name.now file.device file.number) self.now }
    {
        any_other(&self.list, name, file)
    }
}

/// Whether one of the inputs led to this file, and has another name.
fn any_other(list: &[Input], name: &str, file: FileId) -> bool
    ensures { result ≡ list_any (λ i. is_other (record { name = string_bytes i.name; device = i.file.device; number = i.file.number }) name.now file.device file.number) list.now }
{
    list.iter().any(|input| is_other(input, name, file))
}

/// Whether an input led to this file, and has another name.
fn is_other(input: &Input, name: &str, file: FileId) -> bool
    ensures { result ≡ is_other (record { name = string_bytes input.now.name; device = input.now.file.device; number = input.now.file.number }) name.now file.device file.number }
{
    let same = input.file.device == file.device && input.file.number == file.number;
    same && input.name.as_str() != name
}
