//! The largest lengths of the data of a slave's configurations.

ghost use Rattle.std.specs.Prelude.{◌≡◌};
ghost use Rattle.gsd_files.specs.GsdText.{sizes_of, sizes_read, larger};
ghost use Rattle.dp_cfg.specs.Reading.{reading_of};

use dp_cfg::CfgIds;
use dp_slave::Configuration;

/// Lengths of data, in octets.
#[derive(Clone, Copy)]
pub(crate) struct Sizes {
    /// Of the inputs, 0 to 244.
    pub(crate) inputs: u32,
    /// Of the outputs, 0 to 244.
    pub(crate) outputs: u32,
    /// Of the inputs and the outputs together, 0 to 488.
    pub(crate) both: u32,
}

/// Returns the lengths of a configuration; none for octets that are no configuration.
fn sizes_in(octets: &Configuration) -> Sizes
    ensures { result ≡ sizes_read (reading_of octets.now.items) }
{
    match CfgIds::parse(octets.as_slice()) {
        Ok(ids) => {
            let inputs = u32::from(ids.input_len());
            let outputs = u32::from(ids.output_len());
            Sizes {
                inputs,
                outputs,
                both: inputs + outputs,
            }
        }
        Err(_) => Sizes {
            inputs: 0,
            outputs: 0,
            both: 0,
        },
    }
}

/// Returns the larger of each length.
fn larger(a: Sizes, b: Sizes) -> Sizes
    ensures { result ≡ larger a b }
{
    Sizes {
        inputs: a.inputs.max(b.inputs),
        outputs: a.outputs.max(b.outputs),
        both: a.both.max(b.both),
    }
}

/// Returns the largest lengths of these configurations.
pub(crate) fn sizes_of(cfgs: &[Configuration]) -> Sizes
    ensures { result ≡ sizes_of cfgs.now }
{
    match cfgs {
        [] => Sizes {
            inputs: 0,
            outputs: 0,
            both: 0,
        },
        [first, others @ ..] => larger(sizes_in(first), sizes_of(others)),
    }
}
