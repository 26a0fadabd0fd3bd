//! Division of many numbers by one step.
ghost use Rattle.std.specs.Prelude.{◌≡◌, ℕ, ◌+◌, ◌*◌, ◌/◌, ◌^◌, ◌<◌, ◌≤◌, min};

/// A step, with what divides by it: its quotient into `2 ^ 56` and 255 steps.
#[derive(Drop)]
pub struct Steps {
    pub step: u64,
    most: u64,
    inverse: u64,
    ghost some: { 1 ≤ step },
    ghost most_is: { most ≡ min 18446744073709551615 (255 * step) },
    ghost inverse_is: { inverse ≡ 72057594037927936 / step },
}

impl Steps {
    /// Division by this step, which is at least 1.
    pub fn new(step: u64) -> Steps
        requires { 1 ≤ step }
        ensures { result.step ≡ step }
    {
        Steps {
            step,
            most: step.saturating_mul(255),
            inverse: (1 << 56) / step,
        }
    }

    /// How many whole steps a gap has, and 255 if it has more: the gap times the inverse is the answer or one less.
    #[inline(always)]
    pub(crate) fn count(&self, gap: u64) -> u8
        requires { gap ≤ 72057594037927936 }
        ensures { result ≡ min 255 (gap / self.now.step) }
    {
        let gap = gap.min(self.most);
        let low = (gap * self.inverse) >> 56;
        let rest = gap - low * self.step;
        if rest >= self.step {
            (low + 1) as u8
        } else {
            low as u8
        }
    }
}
