// The types of a command, the first of its three lists; the tests and operations are read by their scope. Each loop needs its index, as a place of the array
// and of the body; a function of their one shape would be no plainer than they are.
ghost use Rattle.std.specs.Prelude.{◌≡◌, ◌≤◌, drop};
ghost use Rattle.records.specs.Results.{value_of};
ghost use Rattle.command_bytes.specs.Read.{types_in};
ghost use Rattle.command_bytes.specs.Inner.Parts.{in_array};
ghost use Rattle.model.specs.Arrays.{parameters_from};

use crate::fields::type_in;
use crate::none::NO_TYPE;
use faults::Fault;
use model::{Head, Parameters};

pub(crate) fn types_at(b: &[u8], i: usize, h: Head, k: u8) -> Result<Parameters, Fault>
    requires { (i ≤ 1024) × (k ≤ 8) }
    ensures { result ≡ value_of (in_array parameters_from (types_in h k) (drop i b.now)) }
{
    let mut types = [NO_TYPE; Parameters::PLACES];
    for j in 0..k as usize {
        types[j] = type_in(b, i + j, h)?;
    }
    Ok(Parameters { count: k, types })
}
