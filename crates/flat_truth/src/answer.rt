//! What an exact search answers.
ghost use Rattle.std.specs.Prelude.{◌≡◌, map};
ghost use Rattle.flat_truth.specs.Pairs.{key_of};

use crate::TruePair;
use std::marker::Model;

/// The nearest base rows of a query: pairs in rising order of (distance, row).
#[derive(Drop)]
pub struct Exact {
    pairs: Vec<TruePair>,
}

impl Model for Exact {
    ghost use Rattle.std.specs.Prelude.{List};
    ghost use Rattle.book_model.specs.Order.{Pair};

    ghost Value = { List Pair };

    ghost use Rattle.flat_truth.specs.Pairs.{view_exact};

    ghost view = { view_exact };
}

impl Exact {
    /// These pairs.
    pub(crate) fn of_pairs(pairs: Vec<TruePair>) -> Exact
        ensures { result ≡ map key_of pairs.items }
    {
        Exact { pairs }
    }

    /// The pairs, nearest first.
    pub fn pairs(&self) -> &[TruePair]
        ensures { map key_of result.now ≡ self.now }
    {
        self.pairs.as_slice()
    }
}
