//! A configuration that has been read.

ghost use Rattle.std.specs.Prelude.{◌≡◌, ◌≤◌, ◌<◌, ◌⊎◌, ◌↔◌, List, length, IsTrue, IsOk, IfOk, IsErrOf};
ghost use Rattle.dp_cfg.specs.Choosing.{same_octets};
ghost use Rattle.dp_cfg.specs.Identifiers.{Identifier, IsSplit, input_sum, output_sum, most_octets};
ghost use Rattle.dp_cfg.specs.Reading.{reading_of, input_octets, output_octets};
ghost use Rattle.dp_cfg.specs.declared.fault.CfgFault.TheVariants.{Cut, TooLong};

use crate::fault::CfgFault;
use crate::sums::{MOST_OCTETS, lengths_of};
use arrayvec::ArrayVec;
use std::marker::Model;

/// The configuration identifiers of a slave: octets that split into identifiers, whose inputs and
/// outputs are at most 244 octets each (IEC 61158-6-3, configuration identifiers). Contracts see
/// the octets. The default, of no octets, only fills the free cells of an `ArrayVec`.
#[derive(Debug, Default, Drop)]
pub struct CfgIds {
    octets: ArrayVec<u8, MOST_OCTETS>,
    inputs: u8,
    outputs: u8,
}

impl Model for CfgIds {
    ghost use Rattle.std.specs.Prelude.{ℕ, List};
    ghost use Rattle.dp_cfg.specs.PrivateWords.{IsConfiguration};

    ghost Value = { List ℕ };

    ghost view = { λ a. a.octets.items };

    ghost invariant = { λ a. IsConfiguration a.octets.items a.inputs a.outputs };
}

impl CfgIds {
    /// Returns the configuration of these octets, at most 244 of them. Returns `Cut` if they end
    /// within an identifier. If they don't, returns `TooLong` if the inputs or the outputs of all
    /// identifiers together are more than 244 octets (IEC 61158-6-3, Chk_Cfg request).
    pub fn parse(octets: &[u8]) -> Result<CfgIds, CfgFault>
        requires { length octets.now ≤ most_octets }
        ensures ok { IsOk result ↔ ((ids : List Identifier) × IsSplit octets.now ids
            × (input_sum ids ≤ most_octets) × (output_sum ids ≤ most_octets)) }
        ensures value { IfOk result (λ ids. ids ≡ octets.now) }
        ensures cut { IsErrOf result Cut ↔ ((ids : List Identifier) → ¬ IsSplit octets.now ids) }
        ensures too_long { IsErrOf result TooLong ↔ ((ids : List Identifier) × IsSplit octets.now ids
            × ((most_octets < input_sum ids) ⊎ (most_octets < output_sum ids))) }
        ensures computed { result ≡ reading_of octets.now }
    {
        let lengths = lengths_of(octets)?;
        Ok(CfgIds {
            octets: ArrayVec::try_from(octets).unwrap(),
            inputs: lengths.inputs,
            outputs: lengths.outputs,
        })
    }

    /// Returns the inputs of all identifiers together, 0 to 244 octets (IEC 61158-6-3,
    /// Data_Exchange): the sum over the identifiers into which the octets split.
    pub fn input_len(&self) -> u8
        ensures computed { result ≡ input_octets self.now }
        ensures summed { (ids : List Identifier) × IsSplit self.now ids × (result ≡ input_sum ids) }
        ensures most { result ≤ most_octets }
    {
        self.inputs
    }

    /// Returns the outputs of all identifiers together, 0 to 244 octets (IEC 61158-6-3,
    /// Data_Exchange): the sum over the identifiers into which the octets split.
    pub fn output_len(&self) -> u8
        ensures computed { result ≡ output_octets self.now }
        ensures summed { (ids : List Identifier) × IsSplit self.now ids × (result ≡ output_sum ids) }
        ensures most { result ≤ most_octets }
    {
        self.outputs
    }

    /// Returns the octets as they were given, at most 244 (IEC 61158-6-3, Get_Cfg response).
    pub fn octets(&self) -> &[u8]
        ensures value { result.now ≡ self.now }
        ensures most { length result.now ≤ most_octets }
        ensures is_read { reading_of self.now ≡ Ok self.now }
    {
        self.octets.as_slice()
    }

    /// Returns whether these octets are those of the configuration, octet by octet (IEC 61158-6-3,
    /// Chk_Cfg request).
    pub fn equals(&self, octets: &[u8]) -> bool
        ensures equal { IsTrue result ↔ (self.now ≡ octets.now) }
        ensures computed { result ≡ same_octets self.now octets.now }
    {
        self.octets() == octets
    }
}
