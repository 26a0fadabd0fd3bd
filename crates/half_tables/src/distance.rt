//! The squared distances of residuals to words.
ghost use Rattle.std.specs.Prelude.{◌≡◌, ◌*◌, ◌^◌, ◌≤◌, ◌<◌, length, slice_index, EachIndex};
ghost use Rattle.word_columns.specs.Left.{rest_dist, rest_gap};
ghost use Rattle.half_tables.specs.Residual.{residual_word};

/// The squared distance of the residual of x at these coarse components to a word, all of one length, which is at most 1024.
#[tactic(auto, unfolding(word_columns::specs::Left::rest_dist))]
pub fn residual_dist(scale: u32, x: &[u8], coarse: &[u16], word: &[u16]) -> u64
    requires scale { scale ≤ 8 }
    requires coarse { length coarse.now ≡ length x.now }
    requires word { length word.now ≡ length x.now }
    requires short { length x.now ≤ 1024 }
    ensures value { result ≡ rest_dist scale x.now coarse.now word.now }
    ensures small { result ≤ 9895202000896 }
{
    let mut total = 0;
    for (i, x) in x.iter().enumerate() {
        total += gap(scale, *x, coarse[i], word[i]);
    }
    total
}

/// The square of what is left of a component when c and u - 32768 are taken off.
#[inline(always)]
#[tactic(auto, using(crate::proofs::Gaps::scaled_le, crate::proofs::Gaps::shifted))]
fn gap(scale: u32, x: u8, c: u16, u: u16) -> u64
    requires { scale ≤ 8 }
    ensures value { result ≡ rest_gap scale x c u }
    ensures small { result ≤ 9663283204 }
{
    let counted = (u32::from(x) << scale) + 32768;
    let gap = u64::from(counted.abs_diff(u32::from(c) + u32::from(u)));
    gap * gap
}

/// Writes the squared distance of the residual to each of as many words as `into` has places. The words stand one after
/// another, and each is as long as x.
pub(crate) fn residual_each(scale: u32, words: &[u16], x: &[u8], coarse: &[u16], into: &mut [u64])
    requires scale { scale ≤ 8 }
    requires coarse { length coarse.now ≡ length x.now }
    requires short { length x.now ≤ 1024 }
    requires whole { length words.now ≡ length into.old * length x.now }
    ensures each { EachIndex into.new (λ i. slice_index into.new i ≡ residual_word scale words.now x.now coarse.now i) }
    ensures small { EachIndex into.new (λ i. slice_index into.new i ≤ 9895202000896) }
{
    for (i, distance) in into.iter_mut().enumerate() {
        let at = i * x.len();
        *distance = residual_dist(scale, x, coarse, &words[at..at + x.len()]);
    }
}
