//! Checks of whole vector files, by stretches of at most 8,192 bytes.
ghost use Rattle.std.specs.Prelude.{ℕ, List, take, drop, option_map, ◌≡◌, ◌≢◌, ◌+◌, ◌*◌, ◌<◌, ◌≤◌, Err, Some, length, IfOk, OnOk, IfSome, min};
ghost use Rattle.std.specs.Option.{ForSome};
ghost use Rattle.adc_ports.specs.States.{OnlyReads, SameReads};
ghost use Rattle.adc_ports.specs.Files.{Rose, bytes_of};
ghost use Rattle.vec_files.specs.Found.{IsWithinLimits, Answers, found_of_bvecs, found_of_ivecs};
ghost use Rattle.vec_files.specs.Progress.{rest, KeepsRest};
ghost use Rattle.vec_files.specs.Rest.{whole_of};
ghost use Rattle.vec_files.specs.declared.VecError.TheVariants.{ReadFault};

use crate::numbers::number;
use crate::progress::{Progress, STRETCH};
use crate::{Checked, MAX_BYTES, MAX_D, VecError};
use adc_ports::{Shelf, What};

/// Goes over the rows whose headers lie within a stretch that begins where the next row begins.
fn over_stretch(stretch: &[u8], width: u64, from: Progress) -> Result<Progress, VecError>
    requires short { length stretch.now ≤ STRETCH }
    requires wide { 1 ≤ width }
    requires narrow { width ≤ 4 }
    ensures no_fault { result ≢ Err ReadFault }
    ensures same_end { IfOk result (λ next. next.end ≡ from.end) }
    ensures goes_on { IfOk result (λ next. 4 ≤ length stretch.now → from.at < from.end → from.at < next.at) }
    ensures stays_on { IfOk result (λ next. from.at ≤ next.at) }
    ensures wanted { IfOk result (λ next. IfSome from.d (λ d. next.d ≡ Some d)) }
    ensures rest { (bytes : List ℕ) → length bytes ≡ from.end → stretch.now ≡ take (length stretch.now) (drop from.at bytes) → KeepsRest width from bytes result }
{
    let mut now = from;
    while now.at < now.end && now.at - from.at + 4 <= stretch.len() as u64 {
        now.may_begin()?;
        let place = (now.at - from.at) as usize;
        now = now.after_row(number(&stretch[place..place + 4]), width)?;
    }
    Ok(now)
}

/// Fetches the stretch where the next row begins, and goes over its rows. A fetch that comes short ends the file.
fn fetch_stretch<H: Shelf>(
    shelf: &mut H,
    name: &str,
    buffer: &mut [u8],
    width: u64,
    from: Progress,
) -> Result<Progress, VecError>
    requires long { length buffer.old ≡ STRETCH }
    requires wide { 1 ≤ width }
    requires narrow { width ≤ 4 }
    requires left { from.at < from.end }
    ensures reads { OnlyReads (H.state shelf.old) (H.state shelf.new) }
    ensures failed { result ≡ Err ReadFault → Rose (H.state shelf.old).read_faults (H.state shelf.new).read_faults }
    ensures memory { result ≡ Err VecError.Memory → SameReads (H.state shelf.old) (H.state shelf.new) }
    ensures counts { OnOk result (SameReads (H.state shelf.old) (H.state shelf.new)) }
    ensures nearer { IfOk result (λ next. next.end + from.at < from.end + next.at) }
    ensures wanted { IfOk result (λ next. IfSome from.d (λ d. next.d ≡ Some d)) }
    ensures same_end { ForSome (H.state shelf.old).files (λ files. from.end ≡ length (bytes_of files name.now) → IfOk result (λ next. next.end ≡ from.end)) }
    ensures rest { ForSome (H.state shelf.old).files (λ files. from.end ≡ length (bytes_of files name.now) → KeepsRest width from (bytes_of files name.now) result) }
{
    from.may_begin()?;
    let count = shelf.fetch(name, from.at, buffer)?;
    let ended = from.ended_by(count);
    over_stretch(&buffer[..count], width, ended)
}

/// Goes over the rows that are left.
fn to_the_end<H: Shelf>(
    shelf: &mut H,
    name: &str,
    width: u64,
    from: Progress,
) -> Result<Checked, VecError>
    requires wide { 1 ≤ width }
    requires narrow { width ≤ 4 }
    ensures reads { OnlyReads (H.state shelf.old) (H.state shelf.new) }
    ensures failed { result ≡ Err ReadFault → Rose (H.state shelf.old).read_faults (H.state shelf.new).read_faults }
    ensures memory { result ≡ Err VecError.Memory → SameReads (H.state shelf.old) (H.state shelf.new) }
    ensures counts { OnOk result (SameReads (H.state shelf.old) (H.state shelf.new)) }
    ensures within_limits { IfOk result IsWithinLimits }
    ensures wanted { IfOk result (λ found. IfSome from.d (λ d. found.d ≡ d)) }
    ensures rest { ForSome (H.state shelf.old).files (λ files. from.end ≡ length (bytes_of files name.now) → Answers result (Some (rest width from (bytes_of files name.now)))) }
{
    let mut buffer = [0u8; STRETCH];
    let mut now = from;
    while now.at < now.end {
        now = fetch_stretch(shelf, name, &mut buffer, width, now)?;
    }
    Ok(now.checked())
}

/// Checks a file whose components have this many bytes each.
fn check<H: Shelf>(
    shelf: &mut H,
    name: &str,
    d: Option<u32>,
    width: u64,
) -> Result<Checked, VecError>
    requires wide { 1 ≤ width }
    requires narrow { width ≤ 4 }
    requires d { ForSome d (λ d. (1 ≤ d) × (d ≤ MAX_D)) }
    ensures reads { OnlyReads (H.state shelf.old) (H.state shelf.new) }
    ensures failed { result ≡ Err ReadFault → Rose (H.state shelf.old).read_faults (H.state shelf.new).read_faults }
    ensures memory { result ≡ Err VecError.Memory → SameReads (H.state shelf.old) (H.state shelf.new) }
    ensures counts { OnOk result (SameReads (H.state shelf.old) (H.state shelf.new)) }
    ensures within_limits { IfOk result IsWithinLimits }
    ensures wanted { IfOk result (λ found. IfSome d (λ d. found.d ≡ d)) }
    ensures outcome { ForSome (H.state shelf.old).files (λ files. Answers result (option_map (whole_of width d) (files name.now))) }
{
    let Some(size) = shelf.size(name)? else {
        return Err(VecError::Missing);
    };
    if size > MAX_BYTES {
        return Err(VecError::Limit {
            what: What::Bytes,
            value: size,
        });
    }
    to_the_end(shelf, name, width, Progress::start(size, d))
}

/// Checks a whole bvecs file. Each row is a header of four bytes, the row's length d from 1 to 1024, and d components of a
/// byte each; all rows have one length, and if `d` is given it is that one. An empty file is good: it has no rows, and the
/// given length, or 0. The first field that is cut, missing or not allowed is Malformed at its first byte, a component at the
/// file's end; more than 2,147,483,648 bytes, a length above 1024 and more than 4,194,304 rows are Limit.
/// A stretch of at most 8,192 bytes is fetched at a time, each from a header on, and components are passed over unseen.
pub fn check_bvecs<H: Shelf>(shelf: &mut H, name: &str, d: Option<u32>) -> Result<Checked, VecError>
    requires { ForSome d (λ d. (1 ≤ d) × (d ≤ MAX_D)) }
    ensures reads { OnlyReads (H.state shelf.old) (H.state shelf.new) }
    ensures failed { result ≡ Err ReadFault → Rose (H.state shelf.old).read_faults (H.state shelf.new).read_faults }
    ensures memory { result ≡ Err VecError.Memory → SameReads (H.state shelf.old) (H.state shelf.new) }
    ensures counts { OnOk result (SameReads (H.state shelf.old) (H.state shelf.new)) }
    ensures within_limits { IfOk result IsWithinLimits }
    ensures wanted { IfOk result (λ found. IfSome d (λ d. found.d ≡ d)) }
    ensures outcome { ForSome (H.state shelf.old).files (λ files. Answers result (option_map (found_of_bvecs d) (files name.now))) }
    ensures length { ForSome (H.state shelf.old).files (λ files. IfOk result (λ found. found.rows * (4 + found.d) ≡ length (bytes_of files name.now))) }
{
    check(shelf, name, d, 1)
}

/// Checks a whole ivecs file: as a bvecs file, but each component is a signed number of four bytes, and one that is cut is
/// Malformed at its first byte.
pub fn check_ivecs<H: Shelf>(shelf: &mut H, name: &str) -> Result<Checked, VecError>
    ensures reads { OnlyReads (H.state shelf.old) (H.state shelf.new) }
    ensures failed { result ≡ Err ReadFault → Rose (H.state shelf.old).read_faults (H.state shelf.new).read_faults }
    ensures memory { result ≡ Err VecError.Memory → SameReads (H.state shelf.old) (H.state shelf.new) }
    ensures counts { OnOk result (SameReads (H.state shelf.old) (H.state shelf.new)) }
    ensures within_limits { IfOk result IsWithinLimits }
    ensures outcome { ForSome (H.state shelf.old).files (λ files. Answers result (option_map found_of_ivecs (files name.now))) }
    ensures length { ForSome (H.state shelf.old).files (λ files. IfOk result (λ found. found.rows * (4 + 4 * found.d) ≡ length (bytes_of files name.now))) }
{
    check(shelf, name, None, 4)
}
