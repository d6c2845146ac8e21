//! Chooses one of several configurations by the octets that a master sends.

ghost use Rattle.std.specs.Prelude.{◌≡◌, ◌<◌, ◌≤◌, length, take, position, IfSome};
ghost use Rattle.dp_cfg.specs.Choosing.{chosen, most_choices, same_octets};

use crate::ids::CfgIds;

/// Returns the number of the first of these configurations that has these octets, counted from 0
/// and below their count (IEC 61158-6-3, Chk_Cfg request). Returns `None` if none of them has the
/// octets. Only the first 256 count, because the number is one octet (own).
///
/// The number of configurations has no bound, because each caller would have to prove it. No slave
/// has more than 256.
pub fn choose(configurations: &[CfgIds], octets: &[u8]) -> Option<u8>
    ensures value { result ≡ chosen (take most_choices configurations.now) octets.now }
    ensures few { length configurations.now ≤ most_choices → result ≡ chosen configurations.now octets.now }
    ensures bound { IfSome result (λ number. number < length configurations.now) }
{
    let number = index_of(configurations, octets)?;
    u8::try_from(number).ok()
}

/// Returns the index of the first of these configurations that has these octets.
fn index_of(configurations: &[CfgIds], octets: &[u8]) -> Option<usize>
    ensures { result ≡ position (λ configuration. same_octets configuration octets.now) configurations.now }
{
    configurations
        .iter()
        .position(|configuration| configuration.equals(octets))
}
