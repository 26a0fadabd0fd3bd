//! The count of full distances.
ghost use Rattle.std.specs.Prelude.{◌≡◌, ◌+◌, ◌^◌, ◌≤◌};

use std::alloc::Global;
use std::marker::Model;

/// How many full distances were computed.
#[derive(Drop)]
pub struct FullMeter {
    count: u64,
}

impl Model for FullMeter {
    ghost use Rattle.std.specs.Prelude.{ℕ};

    ghost Value = { ℕ };

    ghost view = { λ meter. meter.count };
}

impl FullMeter {
    /// A meter at 0. The allocator is a token alone: no memory is taken.
    pub fn new(_alloc: Global) -> FullMeter
        ensures { result ≡ 0 }
    {
        FullMeter { count: 0 }
    }

    /// How often it was raised.
    pub fn count(&self) -> u64
        ensures { result ≡ self.now }
    {
        self.count
    }

    /// Counts one more distance.
    #[inline(always)]
    pub(crate) fn raise(&mut self)
        requires { self.old ≤ 2 ^ 63 }
        ensures { self.new ≡ self.old + 1 }
    {
        self.count += 1;
    }
}
