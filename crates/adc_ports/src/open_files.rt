//! Files of the system that stay open from call to call.
ghost use Rattle.std.specs.Prelude.{◌≡◌, ◌≤◌, ◌<◌, ◌+◌, ◌^◌, ◌↔◌, ◌⊎◌, length, drop, IsTrue, IsSomeAnd, IfSome, IfOk, OnOk, string_bytes, vec_len};

use crate::inputs::{FileId, Inputs};
use crate::system::{read_whole, write_whole};
use std::alloc::Global;
use std::fs::{self, File, Metadata, OpenFile, OpenOptions};
use std::io;
use std::io::{ErrorKind, Read, Seek, SeekFrom};
use std::rt::Files;

/// How many bytes a read asks the system for.
const STRETCH: usize = 65_536;

/// A file that is open to read, its name, the place where its next read begins, and the length that was told last.
#[derive(Drop)]
struct Opened<F> {
    name: String,
    file: F,
    place: u64,
    size: u64,
}

/// A file that is open to write at its end, and its name.
#[derive(Drop)]
struct Written<F> {
    name: String,
    file: F,
}

/// The two files that were read last and the one that was written last, open. A handle whose call met an error is closed.
#[derive(Drop)]
pub struct OpenFiles<R: Files> {
    system: R,
    alloc: Global,
    recent: Option<Opened<R::File>>,
    earlier: Option<Opened<R::File>>,
    written: Option<Written<R::File>>,
    inputs: Inputs,
    stretch: Vec<u8>,
}

/// Whether this is the open file of this name.
fn has_name<F>(opened: &Option<Opened<F>>, name: &str) -> bool
    ensures { IsTrue result ↔ IsSomeAnd opened.now (λ opened. string_bytes opened.name ≡ name.now) }
{
    match opened {
        Some(opened) => opened.name.as_str() == name,
        None => false,
    }
}

/// What the system says of a file; none if it says that there is no such file.
fn found<T>(answer: io::Result<T>) -> io::Result<Option<T>> {
    match answer {
        Ok(value) => Ok(Some(value)),
        Err(error) => {
            if error.kind() == ErrorKind::NotFound {
                return Ok(None);
            }
            Err(error)
        }
    }
}

/// An error unless it is a regular file.
fn regular(about: Metadata) -> io::Result<Metadata> {
    if about.is_file() {
        Ok(about)
    } else {
        Err(io::Error::from(ErrorKind::InvalidInput))
    }
}

/// A file open to read, and what the system says of it; none if there is no such file. It is asked what it is before it is
/// opened, since to open a pipe without a writer would wait.
fn open_to_read<R: Files>(system: &R, name: &str) -> io::Result<Option<(R::File, Metadata)>> {
    let Some(about) = found(fs::metadata(system, name))? else {
        return Ok(None);
    };
    regular(about)?;
    let Some(file) = found(File::open(system, name))? else {
        return Ok(None);
    };
    let about = regular(file.metadata()?)?;
    Ok(Some((file, about)))
}

/// Makes room for the bytes of a read, if there is none yet.
fn make_room(stretch: &mut Vec<u8>) -> io::Result<()>
    ensures { OnOk result (0 < vec_len stretch.new) }
{
    if stretch.is_empty() {
        stretch.resize(STRETCH, 0)?;
    }
    Ok(())
}

/// Reads from a place on until `into` is full or the file ends. It seeks only if the file is not there already. A file that
/// ends before the length that was told is an error.
fn read_at<F: Read + Seek>(
    opened: &mut Opened<F>,
    at: u64,
    stretch: &mut [u8],
    into: &mut [u8],
) -> io::Result<usize>
    requires place { at < 2 ^ 63 }
    requires room { 0 < length stretch.old }
    ensures within { IfOk result (λ n. n ≤ length into.old) }
    ensures rest { IfOk result (λ n. drop n into.new ≡ drop n into.old) }
    ensures place { IfOk result (λ n. opened.new.place ≡ at + n) }
    ensures whole { IfOk result (λ n. (n ≡ length into.old) ⊎ (opened.old.size ≤ at + n)) }
{
    if opened.place != at {
        opened.file.seek(SeekFrom::Start(at))?;
    }
    let n = read_whole(&mut opened.file, stretch, into)?;
    opened.place = at + n as u64;
    if n < into.len() && opened.place < opened.size {
        return Err(io::Error::from(ErrorKind::UnexpectedEof));
    }
    Ok(n)
}

/// The length that the system tells of a file now. One that became shorter is an error.
fn size_now<F: OpenFile>(opened: &mut Opened<F>) -> io::Result<u64>
    ensures told { IfOk result (λ size. opened.new.size ≡ size) }
    ensures never_falls { IfOk result (λ size. opened.old.size ≤ size) }
{
    let size = opened.file.metadata()?.len();
    if size < opened.size {
        return Err(io::Error::from(ErrorKind::UnexpectedEof));
    }
    opened.size = size;
    Ok(size)
}

/// Closes a file. A regular file is first written through to its device, since the system may report only then that bytes were
/// lost, as where a quota is full or a server is gone.
fn close<F: OpenFile + Drop>(file: F) -> io::Result<()> {
    if file.metadata()?.is_file() {
        file.sync_data()?;
    }
    Ok(())
}

impl<R: Files> OpenFiles<R> {
    /// No file is open yet.
    pub fn new(alloc: Global, system: R) -> OpenFiles<R> {
        OpenFiles {
            system,
            alloc,
            recent: None,
            earlier: None,
            written: None,
            inputs: Inputs::new(alloc),
            stretch: Vec::new(alloc),
        }
    }

    /// Takes out the open file of this name, or opens it to read; none if the system has no such file. What is no regular
    /// file is an error.
    fn reader(&mut self, name: &str) -> io::Result<Option<Opened<R::File>>>
        ensures { IfOk result (λ found. IfSome found (λ opened. string_bytes opened.name ≡ name.now)) }
    {
        if has_name(&self.recent, name) {
            return Ok(self.recent.take());
        }
        if has_name(&self.earlier, name) {
            return Ok(self.earlier.take());
        }
        let own_name = String::from_str(self.alloc, name)?;
        let Some((file, about)) = open_to_read(&self.system, name)? else {
            return Ok(None);
        };
        if let Some(id) = FileId::of(&about) {
            self.inputs.add(name, id)?;
        }
        Ok(Some(Opened {
            name: own_name,
            file,
            place: 0,
            size: about.len(),
        }))
    }

    /// Keeps a file as the one that was read last.
    fn keep(&mut self, opened: Opened<R::File>) {
        if self.recent.is_some() {
            self.earlier = self.recent.take();
        }
        self.recent = Some(opened);
    }

    /// Opens a file to write, and makes it if it is not there. One that was read under another name is an error, and stays as
    /// it is.
    fn open_to_write(&self, name: &str, how: &OpenOptions) -> io::Result<(R::File, Metadata)> {
        let file = how.open(&self.system, name)?;
        let about = file.metadata()?;
        if let Some(id) = FileId::of(&about) {
            if self.inputs.has_other(name, id) {
                return Err(io::Error::from(ErrorKind::ResourceBusy));
            }
        }
        Ok((file, about))
    }

    /// Closes the file that was written last.
    fn close_written(&mut self) -> io::Result<()> {
        match self.written.take() {
            Some(written) => close(written.file),
            None => Ok(()),
        }
    }

    /// Takes out the file that was written last if it has this name, or opens it to write at its end.
    fn writer(&mut self, name: &str) -> io::Result<Written<R::File>>
        ensures { IfOk result (λ written. string_bytes written.name ≡ name.now) }
    {
        if let Some(written) = self.written.take() {
            if written.name.as_str() == name {
                return Ok(written);
            }
            close(written.file)?;
        }
        let own_name = String::from_str(self.alloc, name)?;
        let mut how = OpenOptions::new();
        how.append(true).create(true);
        let (file, _) = self.open_to_write(name, &how)?;
        Ok(Written {
            name: own_name,
            file,
        })
    }

    /// The length of a file; none if the system has no such file.
    pub fn size(&mut self, name: &str) -> io::Result<Option<u64>> {
        let Some(mut opened) = self.reader(name)? else {
            return Ok(None);
        };
        let size = size_now(&mut opened)?;
        self.keep(opened);
        Ok(Some(size))
    }

    /// Reads from a place of a file on until `into` is full or the file ends.
    pub fn read(&mut self, name: &str, at: u64, into: &mut [u8]) -> io::Result<usize>
        ensures within { IfOk result (λ n. n ≤ length into.old) }
        ensures rest { IfOk result (λ n. drop n into.new ≡ drop n into.old) }
    {
        let Some(mut opened) = self.reader(name)? else {
            return Ok(0);
        };
        make_room(&mut self.stretch)?;
        let mut n = 0;
        if at <= i64::MAX as u64 {
            n = read_at(&mut opened, at, &mut self.stretch, into)?;
        }
        self.keep(opened);
        Ok(n)
    }

    /// Closes what is open to read under this name, so that its length is asked anew.
    fn forget(&mut self, name: &str) {
        if has_name(&self.recent, name) {
            self.recent = None;
        }
        if has_name(&self.earlier, name) {
            self.earlier = None;
        }
    }

    /// Makes a file exist with no bytes.
    pub fn begin(&mut self, name: &str) -> io::Result<()> {
        self.close_written()?;
        self.forget(name);
        let own_name = String::from_str(self.alloc, name)?;
        let mut how = OpenOptions::new();
        how.write(true).create(true);
        let (file, about) = self.open_to_write(name, &how)?;
        if about.is_file() {
            file.set_len(0)?;
        }
        self.written = Some(Written {
            name: own_name,
            file,
        });
        Ok(())
    }

    /// Writes all of the bytes at a file's end. It makes a file that is not there.
    pub fn append(&mut self, name: &str, bytes: &[u8]) -> io::Result<()> {
        let mut written = self.writer(name)?;
        write_whole(&mut written.file, bytes)?;
        self.written = Some(written);
        Ok(())
    }

    /// Closes the file that was written last, if it has this name.
    pub fn end(&mut self, name: &str) -> io::Result<()> {
        match self.written.take() {
            Some(written) => {
                if written.name.as_str() == name {
                    return close(written.file);
                }
                self.written = Some(written);
                Ok(())
            }
            None => Ok(()),
        }
    }
}
