//! Bytes that go to the end of a file by pieces of at most 8,192.

ghost use Rattle.std.specs.Prelude.{◌≡◌, ◌+◌, ◌≤◌, [], ◌++◌, length, OnOk};
ghost use Rattle.adc_ports.specs.States.{IsThere};
ghost use Rattle.index_file.specs.Written.{Adds};

use crate::STRETCH;
use adc_ports::Shelf;
use std::marker::Model;
use vec_files::WriteError;

/// Bytes that wait for more before they are appended. Contracts see them as their list.
#[derive(Drop)]
pub(crate) struct Pieces {
    buffer: [u8; STRETCH],
    len: usize,
}

impl Model for Pieces {
    ghost use Rattle.std.specs.Prelude.{◌≡◌, ℕ, ◌≤◌, List, length, take};

    ghost Value = { List ℕ };

    ghost view = { λ pieces. take pieces.len pieces.buffer };

    ghost invariant = { λ pieces. (pieces.len ≤ 8192) × (length pieces.buffer ≡ 8192) };
}

impl Pieces {
    /// No bytes.
    pub(crate) fn new() -> Pieces
        ensures { result ≡ [] }
    {
        Pieces {
            buffer: [0; STRETCH],
            len: 0,
        }
    }

    /// For how many bytes more there is room.
    fn room(&self) -> usize
        ensures { result + length self.now ≡ 8192 }
    {
        STRETCH - self.len
    }

    /// The bytes that wait.
    fn bytes(&self) -> &[u8]
        ensures { result.now ≡ self.now }
    {
        &self.buffer[..self.len]
    }

    /// Lets the bytes go.
    fn clear(&mut self)
        ensures { self.new ≡ [] }
    {
        self.len = 0;
    }

    /// Places bytes behind those that wait.
    fn place(&mut self, bytes: &[u8])
        requires { length self.old + length bytes.now ≤ 8192 }
        ensures { self.new ≡ self.old ++ bytes.now }
    {
        let end = self.len + bytes.len();
        self.buffer[self.len..end].copy_from_slice(bytes);
        self.len = end;
    }

    /// Appends the bytes that wait.
    pub(crate) fn flush<H: Shelf>(&mut self, shelf: &mut H, name: &str) -> Result<(), WriteError>
        requires { IsThere (H.state shelf.old) name.now }
        ensures adds { Adds name.now result (H.state shelf.old) (H.state shelf.new) self.old self.new [] }
        ensures empty { OnOk result (self.new ≡ []) }
    {
        shelf.append(name, self.bytes())?;
        self.clear();
        Ok(())
    }

    /// Appends the bytes that wait if there is no room for so many more.
    fn make_room<H: Shelf>(&mut self, shelf: &mut H, name: &str, n: usize) -> Result<(), WriteError>
        requires there { IsThere (H.state shelf.old) name.now }
        requires few { n ≤ 8192 }
        ensures adds { Adds name.now result (H.state shelf.old) (H.state shelf.new) self.old self.new [] }
        ensures room { OnOk result (length self.new + n ≤ 8192) }
    {
        if self.room() < n {
            return self.flush(shelf, name);
        }
        Ok(())
    }

    /// Adds at most 8,192 bytes, and appends those that wait if there is no room.
    pub(crate) fn put<H: Shelf>(
        &mut self,
        shelf: &mut H,
        name: &str,
        bytes: &[u8],
    ) -> Result<(), WriteError>
        requires there { IsThere (H.state shelf.old) name.now }
        requires few { length bytes.now ≤ 8192 }
        ensures { Adds name.now result (H.state shelf.old) (H.state shelf.new) self.old self.new bytes.now }
    {
        self.make_room(shelf, name, bytes.len())?;
        self.place(bytes);
        Ok(())
    }
}
