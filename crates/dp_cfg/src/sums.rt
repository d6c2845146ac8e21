//! Inputs and outputs of all identifiers together.

ghost use Rattle.std.specs.Prelude.{◌≡◌, ◌≤◌, length};
ghost use Rattle.std.specs.Option.{option_map};
ghost use Rattle.dp_cfg.specs.Identifiers.{most_octets};
ghost use Rattle.dp_cfg.specs.PrivateWords.{sums_of};
ghost use Rattle.dp_cfg.specs.Reading.{split_of, unless_faulty, fault_of, input_octets, output_octets};

use crate::fault::CfgFault;
use crate::identifier::{Lengths, first_identifier};

/// The greatest number of octets of inputs, of outputs and of a configuration (IEC 61158-6-3, data
/// unit).
///
/// dp_cfg, dp_prm and dp_sap each define this limit, because none of them uses another.
pub const MOST_OCTETS: usize = 244;

const MOST: u32 = MOST_OCTETS as u32;

/// Returns the inputs and outputs of a configuration, or the fault of octets that are no
/// configuration.
pub(crate) fn lengths_of(octets: &[u8]) -> Result<Lengths, CfgFault>
    requires { length octets.now ≤ most_octets }
    ensures { result ≡ unless_faulty (fault_of octets.now)
        (record { inputs = input_octets octets.now; outputs = output_octets octets.now }) }
{
    let (inputs, outputs) = sums(octets).ok_or(CfgFault::Cut)?;
    if inputs > MOST || outputs > MOST {
        return Err(CfgFault::TooLong);
    }
    Ok(Lengths::new(inputs as u8, outputs as u8))
}

/// Returns the sums of inputs and of outputs over the identifiers; `None` if the last is cut.
fn sums(octets: &[u8]) -> Option<(u32, u32)>
    requires { length octets.now ≤ most_octets }
    ensures { result ≡ option_map sums_of (split_of octets.now) }
{
    let mut inputs = 0;
    let mut outputs = 0;
    let mut rest = octets;
    while !rest.is_empty() {
        let (lengths, behind) = first_identifier(rest)?;
        inputs += u32::from(lengths.inputs);
        outputs += u32::from(lengths.outputs);
        rest = behind;
    }
    Some((inputs, outputs))
}
