//! The result of a Chk_Cfg in words.

ghost use Rattle.std.specs.Prelude.{◌≡◌, ◌<◌, length, map, option_map, IfSome, Some, true};
ghost use Rattle.std.specs.List.{flat_map};
ghost use Rattle.dp_cfg.specs.Choosing.{chosen};
ghost use Rattle.explain_events.specs.DoneWords.{cfg_done_text, good_cfg_text};
ghost use Rattle.explain_events.specs.Services.{configuration_behind, configurations_words, comparable_cfg, cfg_difference_words, has_wrong_configuration};
ghost use Rattle.explain_events.specs.Slots.{is_whole};

use crate::at_slave::RequestAtSlave;
use crate::done::CfgDone;
use crate::set_prm::released_name;
use crate::slots::{is_whole, write_compared};
use crate::words::{OctetsWords, same_octets};
use dp_slave::{Configuration, SlaveSpec};
use std::fmt;

/// Configurations, each after the word `or`.
#[derive(Clone, Copy)]
struct ConfigurationsBehind<'a>(&'a [Configuration]);

impl<'a> fmt::Display for ConfigurationsBehind<'a> {
    ghost output = { λ c. Some (flat_map configuration_behind (map (λ configuration. configuration.items) c.0.now)) };

    fn fmt<W: fmt::Write>(&self, f: &mut fmt::Formatter<W>) -> fmt::Result {
        for configuration in self.0 {
            let octets = OctetsWords(configuration.as_slice());
            write!(f, " or {octets}")?;
        }
        Ok(())
    }
}

/// The configurations of a slave, separated by the word `or`.
#[derive(Clone, Copy)]
struct Configurations<'a>(&'a [Configuration]);

impl<'a> fmt::Display for Configurations<'a> {
    ghost output = { λ c. Some (configurations_words (map (λ configuration. configuration.items) c.0.now)) };

    fn fmt<W: fmt::Write>(&self, f: &mut fmt::Formatter<W>) -> fmt::Result {
        match self.0 {
            [] => f.write_str("none"),
            [first, others @ ..] => {
                let first = OctetsWords(first.as_slice());
                let others = ConfigurationsBehind(others);
                write!(f, "{first}{others}")
            }
        }
    }
}

/// Returns the number of the first configuration that has these octets, from 0; None if no configuration has them.
pub(crate) fn number_of(own: &[Configuration], octets: &[u8]) -> Option<usize>
    ensures number { result ≡ chosen (map (λ configuration. configuration.items) own.now) octets.now }
    ensures bound { IfSome result (λ number. number < length own.now) }
{
    let [first, others @ ..] = own else {
        return None;
    };
    if same_octets(first.as_slice(), octets) {
        return Some(0);
    }
    match number_of(others, octets) {
        Some(number) => Some(number + 1),
        None => None,
    }
}

/// The result of a Chk_Cfg.
#[derive(Clone, Copy)]
pub(crate) struct CfgWords<'a> {
    pub(crate) done: CfgDone,
    /// The request, which lends its data and the description of the slave.
    pub(crate) at_slave: &'a RequestAtSlave<'a>,
}

impl<'a> fmt::Display for CfgWords<'a> {
    ghost output = { λ s. Some (cfg_done_text s.at_slave.now s.done) };

    fn fmt<W: fmt::Write>(&self, f: &mut fmt::Formatter<W>) -> fmt::Result {
        match self.done {
            CfgDone::Good { number, before } => {
                let good = GoodCfg { number, before };
                write!(f, "{good}")
            }
            CfgDone::Wrong { released } => {
                let at_slave = self.at_slave;
                let difference = CfgDifference {
                    octets: at_slave.parts.payload(),
                    own: at_slave.description.cfgs.as_slice(),
                };
                let released = released_name(released);
                write!(f, "wrong configuration: {difference}{released}")
            }
        }
    }
}

/// Returns whether the slave finds the octets of a Chk_Cfg wrong.
pub(crate) fn has_wrong_configuration(octets: &[u8], slave: &SlaveSpec) -> bool
    ensures { result ≡ has_wrong_configuration octets.now slave.now }
{
    number_of(slave.cfgs.as_slice(), octets).is_none()
}

/// The differences of the octets of a Chk_Cfg from the configurations of the slave.
#[derive(Clone, Copy)]
struct CfgDifference<'a> {
    octets: &'a [u8],
    own: &'a [Configuration],
}

impl<'a> fmt::Display for CfgDifference<'a> {
    ghost output = { λ s. let own = map (λ configuration. configuration.items) s.own.now in
        Some (cfg_difference_words s.octets.now own (comparable_cfg s.octets.now own)) };

    fn fmt<W: fmt::Write>(&self, f: &mut fmt::Formatter<W>) -> fmt::Result {
        match comparable(self.octets, self.own) {
            Some(own) => write_compared(f, self.octets, own),
            None => {
                let own = Configurations(self.own);
                write!(f, "the slave has {own}")
            }
        }
    }
}

/// Returns the slave's configuration if it is the only one, and neither it nor the octets end within an identifier.
fn comparable<'a>(octets: &[u8], own: &'a [Configuration]) -> Option<&'a [u8]>
    ensures single { option_map (λ single. single.now) result ≡ comparable_cfg octets.now (map (λ configuration. configuration.items) own.now) }
    ensures sent_whole { IfSome result (λ single. is_whole octets.now ≡ true) }
    ensures own_whole { IfSome result (λ single. is_whole single.now ≡ true) }
{
    match own {
        [] => None,
        [single] => {
            let single = single.as_slice();
            if is_whole(octets) && is_whole(single) {
                Some(single)
            } else {
                None
            }
        }
        [_, _, ..] => None,
    }
}

/// The result of a Chk_Cfg that sent a configuration of the slave.
#[derive(Clone, Copy)]
struct GoodCfg {
    number: usize,
    before: u8,
}

impl fmt::Display for GoodCfg {
    ghost output = { λ s. Some (good_cfg_text s.number s.before) };

    fn fmt<W: fmt::Write>(&self, f: &mut fmt::Formatter<W>) -> fmt::Result {
        let number = self.number;
        let before = self.before;
        if number == usize::from(before) {
            write!(f, "good configuration: number {number}.")
        } else {
            write!(
                f,
                "good configuration: number {number} in place of {before}."
            )
        }
    }
}
