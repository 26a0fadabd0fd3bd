//! How far a check of a vector file has come, and one row more.
ghost use Rattle.std.specs.Prelude.{◌≡◌, ◌≢◌, ◌+◌, ◌*◌, ◌<◌, ◌≤◌, Some, Err, IfOk, IfSome, unwrap_or, min, nat_lt, if◌then◌else◌};
ghost use Rattle.std.specs.Option.{ForSome, ForNone};
ghost use Rattle.vec_files.specs.Rows.{differs};
ghost use Rattle.vec_files.specs.declared.VecError.TheVariants.{ReadFault};
ghost use Rattle.vec_files.specs.declared.TheConstants.{MAX_BYTES, MAX_D, MAX_ROWS};

use crate::{Checked, MAX_BYTES, MAX_D, MAX_ROWS, VecError};
use adc_ports::What;

/// The most bytes that are fetched at once.
pub(crate) const STRETCH: usize = 8192;

/// How far a check has come: where the next row would begin, where the file ends, how many rows were
/// seen, and the length that each row must have.
#[derive(Clone, Copy)]
pub(crate) struct Progress {
    pub at: u64,
    pub end: u64,
    pub rows: u32,
    pub d: Option<u32>,
    ghost within: { at ≤ end },
    ghost ends: { end ≤ MAX_BYTES },
    ghost few: { rows ≤ MAX_ROWS },
    ghost allowed: { ForSome d (λ d. (1 ≤ d) × (d ≤ MAX_D)) },
    ghost begun: { ForNone d (rows ≡ 0) },
}

impl Progress {
    ghost use Rattle.std.specs.Prelude.{ℕ, List, Ok, length, take, drop, IfErr};
    ghost use Rattle.std.specs.Int.{w32, from_le_bytes};
    ghost use Rattle.vec_files.specs.Found.{Refuses};
    ghost use Rattle.vec_files.specs.Progress.{rest, KeepsRest};

    /// Before the first row of a file of this many bytes.
    pub(crate) fn start(size: u64, d: Option<u32>) -> Progress
        requires size { size ≤ MAX_BYTES }
        requires d { ForSome d (λ d. (1 ≤ d) × (d ≤ MAX_D)) }
        ensures at { result.at ≡ 0 }
        ensures end { result.end ≡ size }
        ensures rows { result.rows ≡ 0 }
        ensures d { result.d ≡ d }
    {
        Progress {
            at: 0,
            end: size,
            rows: 0,
            d,
        }
    }

    /// The same, where a stretch that was fetched here had this many bytes. One that is not full ends the file.
    pub(crate) fn ended_by(self, count: usize) -> Progress
        requires { count ≤ STRETCH }
        ensures at { result.at ≡ self.at }
        ensures end { result.end ≡ (if nat_lt count STRETCH then min self.end (self.at + count) else self.end) }
        ensures rows { result.rows ≡ self.rows }
        ensures d { result.d ≡ self.d }
    {
        if count < STRETCH {
            Progress {
                at: self.at,
                end: self.end.min(self.at + count as u64),
                rows: self.rows,
                d: self.d,
            }
        } else {
            self
        }
    }

    /// What the check found, where the file ends.
    #[tactic(auto, using(crate::proofs::Headers::rest_ends))]
    pub(crate) fn checked(&self) -> Checked
        ensures d { result.d ≡ unwrap_or self.now.d 0 }
        ensures rows { result.rows ≡ self.now.rows }
        ensures ended { (width : ℕ) (bytes : List ℕ) → self.now.at ≡ length bytes → rest width self.now bytes ≡ Ok result }
    {
        Checked {
            d: self.d.unwrap_or(0),
            rows: self.rows,
        }
    }

    /// Whether a row may begin where bytes are left: there are not too many before it, and its header is whole.
    #[tactic(auto, using(crate::proofs::Headers::rest_is_full, crate::proofs::Headers::cut_header_stops))]
    pub(crate) fn may_begin(&self) -> Result<(), VecError>
        requires { self.now.at < self.now.end }
        ensures few { IfOk result (λ _. self.now.rows < MAX_ROWS) }
        ensures whole { IfOk result (λ _. self.now.at + 4 ≤ self.now.end) }
        ensures no_fault { result ≢ Err ReadFault }
        ensures refusal { (width : ℕ) (bytes : List ℕ) → length bytes ≡ self.now.end → IfErr result (λ e. Refuses e (Some (rest width self.now bytes))) }
    {
        if self.rows == MAX_ROWS {
            return Err(VecError::Limit {
                what: What::Rows,
                value: MAX_ROWS as u64 + 1,
            });
        }
        if self.end - self.at < 4 {
            return Err(VecError::Malformed { at: self.at });
        }
        Ok(())
    }

    /// One row more, whose header is this number. Its components have this many bytes each.
    #[tactic(auto, using(crate::proofs::Headers::row_steps), unfolding(crate::specs::Rows::header_at, adc_ports::specs::Reading::limited_at, crate::specs::Rest::after_components))]
    pub(crate) fn after_row(self, header: u32, width: u64) -> Result<Progress, VecError>
        requires few { self.rows < MAX_ROWS }
        requires whole { self.at + 4 ≤ self.end }
        requires wide { 1 ≤ width }
        requires narrow { width ≤ 4 }
        ensures no_fault { result ≢ Err ReadFault }
        ensures goes_on { IfOk result (λ next. self.at < next.at) }
        ensures same_end { IfOk result (λ next. next.end ≡ self.end) }
        ensures wanted { IfOk result (λ next. IfSome self.d (λ d. next.d ≡ Some d)) }
        ensures rest { (bytes : List ℕ) → length bytes ≡ self.end → header ≡ from_le_bytes w32 (take 4 (drop self.at bytes)) → KeepsRest width self bytes result }
    {
        if header == 0 {
            return Err(VecError::Malformed { at: self.at });
        }
        if header > MAX_D {
            return Err(VecError::Limit {
                what: What::D,
                value: header as u64,
            });
        }
        if differs(self.d, header) {
            return Err(VecError::Malformed { at: self.at });
        }
        let first = self.at + 4;
        let size = width * header as u64;
        if self.end - first < size {
            let whole = (self.end - first) / width * width;
            return Err(VecError::Malformed { at: first + whole });
        }
        Ok(Progress {
            at: first + size,
            end: self.end,
            rows: self.rows + 1,
            d: Some(header),
        })
    }
}

/// Whether a length of row is another than the one that is wanted.
fn differs(wanted: Option<u32>, d: u32) -> bool
    ensures { result ≡ differs wanted d }
{
    match wanted {
        Some(wanted) => wanted != d,
        None => false,
    }
}
