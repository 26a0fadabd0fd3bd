//! Calls with numbers, some of which are to fail.
ghost use Rattle.std.specs.Prelude.{◌≡◌, ◌+◌, ◌≤◌, [], OnOk, OnErr, IsSome};
ghost use Rattle.adc_ports.specs.Listed.{Calls, keep_of, next_keep, called, listing};

use crate::Memory;
use std::alloc::Global;
use std::marker::Model;

/// How many calls were made, and which are to fail, each with the number of bytes that it keeps.
#[derive(Drop)]
pub struct Numbered {
    listed: Vec<(u32, u32)>,
    made: u32,
}

impl Model for Numbered {
    ghost Value = { Calls };

    ghost view = { λ s. record { listed = s.listed.items; made = s.made } };
}

impl Numbered {
    /// No call was made, and none is to fail.
    pub fn new(alloc: Global) -> Numbered
        ensures { result ≡ record { listed = []; made = 0 } }
    {
        Numbered {
            listed: Vec::new(alloc),
            made: 0,
        }
    }

    /// Lists a call that is to fail. Of two listings of one call the first counts.
    pub fn fail(&mut self, call: u32, keep: u32) -> Result<(), Memory>
        ensures ok { OnOk result (self.new ≡ listing self.old call keep) }
        ensures err { OnErr result (self.new ≡ self.old) }
    {
        match self.listed.push((call, keep)) {
            Ok(()) => Ok(()),
            Err(_) => Err(Memory),
        }
    }

    /// Counts a call, and answers how many bytes it keeps where it is to fail. Numbering stops at the greatest number.
    pub fn next(&mut self) -> Option<u32>
        ensures value { result ≡ next_keep self.old }
        ensures counted { self.new ≡ called self.old }
        ensures never_falls { self.old.made ≤ self.new.made }
        ensures rises { IsSome result → self.new.made ≡ self.old.made + 1 }
    {
        if self.made == u32::MAX {
            return None;
        }
        self.made += 1;
        keep_of(&self.listed, self.made)
    }
}

/// How many bytes the call of this number keeps, where it is listed.
fn keep_of(listed: &[(u32, u32)], call: u32) -> Option<u32>
    ensures { result ≡ keep_of listed.now call }
{
    listed.iter().find(|l| l.0 == call).map(|l| l.1)
}
