//! Inputs of rows whose length may be wanted, or is their own.
ghost use Rattle.std.specs.Prelude.{◌≡◌, ◌≤◌, IfOk, IfSome};
ghost use Rattle.std.specs.Option.{ForSome};
ghost use Rattle.vec_files.specs.Found.{IsWithinLimits};
ghost use Rattle.adc_inputs.specs.Vectors.{vectors_input, IsVectorsCheckOf};
ghost use Rattle.adc_inputs.specs.Steps.{Reads};

use crate::stop::{Stop, of_rows};
use adc_ports::Shelf;
use play_script::Role;
use vec_files::{Checked, MAX_D, check_bvecs};

/// Checks an input of rows, all of one length, which is the wanted one if there is one.
///
/// # Errors
/// `Input` if it is not there or at its first faulty field, `Unread` if a read of the shelf failed, `OutOfMemory`.
pub fn check_vectors<H: Shelf>(
    shelf: &mut H,
    role: Role,
    name: &str,
    wanted: Option<u32>,
) -> Result<Checked, Stop>
    requires { ForSome wanted (λ d. (1 ≤ d) × (d ≤ MAX_D)) }
    ensures within_limits { IfOk result IsWithinLimits }
    ensures size { IfOk result (λ checked. IfSome wanted (λ d. checked.d ≡ d)) }
    ensures reads { Reads result (λ files checked. IsVectorsCheckOf files role name.now wanted checked) (λ files. vectors_input files role name.now wanted) (H.state shelf.old) (H.state shelf.new) }
{
    match check_bvecs(shelf, name, wanted) {
        Ok(checked) => Ok(checked),
        Err(error) => Err(of_rows(role, error)),
    }
}
