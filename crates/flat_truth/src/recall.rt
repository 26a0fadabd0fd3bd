//! Recall: whether an answer has the nearest neighbour.
ghost use Rattle.std.specs.Prelude.{◌≡◌};
ghost use Rattle.flat_truth.specs.Flat.{is_hit};

/// Whether the first number of the truth is not negative and stands among the first k that were found, or among all if there are
/// fewer.
pub fn hit(found: &[i32], truth: &[i32], k: u32) -> bool
    ensures { result ≡ is_hit k found.now truth.now }
{
    let Some(nearest) = truth.first() else {
        return false;
    };
    if *nearest < 0 {
        return false;
    }
    let near = (k as usize).min(found.len());
    found[..near].contains(nearest)
}
