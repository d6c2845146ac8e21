//! The texts of events and answers.

ghost use Rattle.std.specs.Prelude.{codes, ◌≡◌, ◌+◌, ◌*◌, ◌≤◌, ◌++◌, length, max};
ghost use Rattle.std.specs.Fmt.{decimal};
ghost use Rattle.hex.specs.Hex.{encode_lower};
ghost use Rattle.dp_responder.specs.Rules.{rule_name};
ghost use Rattle.dp_line.specs.Names.{operator_fault_name};
ghost use Rattle.dp_text.specs.Texts.{octets_text, event_text, holder_text, facts_text, flags_text, letter_where, point_text, on_or_off_text, op_text, outcome_text, outcome_line, answer_text, dropped_text, addresses_text, pair_text, pairs_text, owned_text, stepped_text, watchdog_text, slave_text, show_text};

use crate::text::{LONGEST, Text};
use dp_line::{Event, Facts, Op, OperatorFault, Outcome, Rule, SlaveView};
use dp_telegram::FrameFault;

impl Text {
    /// Sets the text to the line that answers a master: `M: OUTCOME`, with its LF.
    #[tactic(auto, using(crate::proofs::Lengths::lengths))]
    pub fn set_answer(&mut self, master: u8, outcome: &Outcome)
        ensures { self.new ≡ answer_text master outcome.now }
    {
        self.clear();
        self.push_octet(master);
        self.push_str(": ");
        self.push_outcome(outcome);
        self.push_str("\n");
    }

    /// Sets the text to the line that answers an operator: `OUTCOME`, with its LF.
    #[tactic(auto, using(crate::proofs::Lengths::lengths))]
    pub fn set_outcome(&mut self, outcome: &Outcome)
        ensures { self.new ≡ outcome_line outcome.now }
    {
        self.clear();
        self.push_outcome(outcome);
        self.push_str("\n");
    }

    /// Sets the text to the line that reports to a master what was dropped from its stream:
    /// `M: dropped FAULT COUNT`, with its LF.
    #[tactic(auto, using(crate::proofs::Lengths::lengths))]
    pub fn set_dropped(&mut self, master: u8, fault: FrameFault, count: u8)
        ensures { self.new ≡ dropped_text master fault count }
    {
        self.clear();
        self.push_octet(master);
        self.push_str(": dropped ");
        self.push_str(fault.name());
        self.push_str(" ");
        self.push_octet(count);
        self.push_str("\n");
    }

    /// Sets the text to the line that lists the slaves of a master: `owned` with ` A` for each, and its LF.
    #[tactic(auto, using(crate::proofs::Lengths::lengths))]
    pub fn set_owned(&mut self, addresses: &[u8])
        requires { length addresses.now ≤ 64 }
        ensures { self.new ≡ owned_text addresses.now }
    {
        self.clear();
        self.push_str("owned");
        self.push_addresses(addresses);
        self.push_str("\n");
    }

    /// Sets the text to the line that reports the number of device inputs recorded: `stepped N`, with its LF.
    #[tactic(auto, using(crate::proofs::Lengths::lengths))]
    pub fn set_stepped(&mut self, recorded: u8)
        ensures { self.new ≡ stepped_text recorded }
    {
        self.clear();
        self.push_str("stepped ");
        self.push_octet(recorded);
        self.push_str("\n");
    }

    /// Sets the text to the line that shows a slave, `show A STATE HOLDER in HEX out HEX wd N`, or to
    /// `refused NoStation` for an address that no slave has, with its LF.
    #[tactic(auto, using(crate::proofs::Lengths::lengths))]
    pub fn set_show(&mut self, slave: &Option<SlaveView>)
        ensures { self.new ≡ show_text slave.now }
    {
        self.clear();
        match slave {
            None => self.push_str("refused NoStation\n"),
            Some(slave) => self.push_slave(slave),
        }
    }

    /// Appends an outcome: `reply HEX RULE`, `silence RULE`, `spread` with ` A:RULE` for each slave of the
    /// sender, `released` with ` A` for each released slave, `done` or `refused FAULT`.
    pub fn push_outcome(&mut self, outcome: &Outcome)
        requires { length self.old + 1_158 ≤ LONGEST }
        ensures text { self.new ≡ self.old ++ outcome_text outcome.now }
        ensures most { length self.new ≤ length self.old + 1_158 }
    {
        match outcome {
            Outcome::Reply { octets, rule } => self.push_reply(octets.as_slice(), *rule),
            Outcome::Silence(rule) => self.push_silence(*rule),
            Outcome::Spread(pairs) => self.push_spread(pairs.as_slice()),
            Outcome::Released(addresses) => self.push_released(addresses.as_slice()),
            Outcome::Done => self.push_str("done"),
            Outcome::Refused(fault) => self.push_refused(*fault),
        }
    }

    #[tactic(auto, using(crate::proofs::Lengths::lengths))]
    fn push_reply(&mut self, octets: &[u8], rule: Rule)
        requires octets { length octets.now ≤ 255 }
        requires room { length self.old + 530 ≤ LONGEST }
        ensures text { self.new ≡ self.old ++ (codes "reply " ++ encode_lower octets.now ++ codes " " ++ rule_name rule) }
        ensures most { length self.new ≤ length self.old + 530 }
    {
        self.push_str("reply ");
        self.push_hex(octets);
        self.push_str(" ");
        self.push_str(rule.name());
    }

    #[tactic(auto, using(crate::proofs::Lengths::lengths))]
    fn push_silence(&mut self, rule: Rule)
        requires { length self.old + 530 ≤ LONGEST }
        ensures text { self.new ≡ self.old ++ (codes "silence " ++ rule_name rule) }
        ensures most { length self.new ≤ length self.old + 530 }
    {
        self.push_str("silence ");
        self.push_str(rule.name());
    }

    #[tactic(auto, using(crate::proofs::Lengths::lengths))]
    fn push_spread(&mut self, pairs: &[(u8, Rule)])
        requires pairs { length pairs.now ≤ 64 }
        requires room { length self.old + 1_158 ≤ LONGEST }
        ensures text { self.new ≡ self.old ++ (codes "spread" ++ pairs_text pairs.now) }
        ensures most { length self.new ≤ length self.old + 1_158 }
    {
        self.push_str("spread");
        self.push_pairs(pairs);
    }

    /// Appends addresses with their rules, each pair after a space.
    #[tactic(auto, using(crate::proofs::Lengths::lengths))]
    fn push_pairs(&mut self, pairs: &[(u8, Rule)])
        requires { length self.old + 18 * length pairs.now ≤ LONGEST }
        ensures text { self.new ≡ self.old ++ pairs_text pairs.now }
        ensures most { length self.new ≤ length self.old + 18 * length pairs.now }
    {
        let mut left = pairs;
        while let [pair, rest @ ..] = left {
            self.push_pair(*pair);
            left = rest;
        }
    }

    /// Appends an address and the rule of its slave, after a space.
    #[tactic(auto, using(crate::proofs::Lengths::lengths))]
    fn push_pair(&mut self, pair: (u8, Rule))
        requires { length self.old + 18 ≤ LONGEST }
        ensures text { self.new ≡ self.old ++ pair_text pair }
        ensures most { length self.new ≤ length self.old + 18 }
    {
        self.push_str(" ");
        self.push_octet(pair.0);
        self.push_str(":");
        self.push_str(pair.1.name());
    }

    #[tactic(auto, using(crate::proofs::Lengths::lengths))]
    fn push_released(&mut self, addresses: &[u8])
        requires addresses { length addresses.now ≤ 64 }
        requires room { length self.old + 530 ≤ LONGEST }
        ensures text { self.new ≡ self.old ++ (codes "released" ++ addresses_text addresses.now) }
        ensures most { length self.new ≤ length self.old + 530 }
    {
        self.push_str("released");
        self.push_addresses(addresses);
    }

    #[tactic(auto, using(crate::proofs::Lengths::lengths))]
    fn push_refused(&mut self, fault: OperatorFault)
        requires { length self.old + 530 ≤ LONGEST }
        ensures text { self.new ≡ self.old ++ (codes "refused " ++ operator_fault_name fault) }
        ensures most { length self.new ≤ length self.old + 530 }
    {
        self.push_str("refused ");
        self.push_str(fault.name());
    }

    /// Appends the facts of an event: `none`, or the state of the slave and then its holder.
    #[tactic(auto, using(crate::proofs::Lengths::lengths))]
    pub fn push_facts(&mut self, facts: &Facts)
        requires { length self.old + 13 ≤ LONGEST }
        ensures text { self.new ≡ self.old ++ facts_text facts.now }
        ensures most { length self.new ≤ length self.old + 13 }
    {
        match facts {
            None => self.push_str("none"),
            Some((state, holder)) => {
                self.push_str(state.name());
                self.push_str(" ");
                self.push_holder(*holder);
            }
        }
    }

    #[tactic(auto, using(crate::proofs::Lengths::lengths))]
    fn push_holder(&mut self, holder: Option<u8>)
        requires { length self.old + 4 ≤ LONGEST }
        ensures text { self.new ≡ self.old ++ holder_text holder }
        ensures most { length self.new ≤ length self.old + 4 }
    {
        match holder {
            None => self.push_str("none"),
            Some(master) => self.push_octet(master),
        }
    }

    /// Appends an event: `req M HEX`, `in A HEX`, `diag A FLAGS HEX`, `busy A POINT on` or `off`, `tick N` in
    /// units of 10 ms, or `halt`.
    pub fn push_event(&mut self, event: &Event)
        requires { length self.old + 518 ≤ LONGEST }
        ensures text { self.new ≡ self.old ++ event_text event.now }
        ensures most { length self.new ≤ length self.old + 518 }
    {
        match event {
            Event::Request { master, octets } => self.push_data("req ", *master, octets.as_slice()),
            Event::Operator(op) => self.push_op(op),
        }
    }

    fn push_op(&mut self, op: &Op)
        requires { length self.old + 518 ≤ LONGEST }
        ensures text { self.new ≡ self.old ++ op_text op.now }
        ensures most { length self.new ≤ length self.old + 518 }
    {
        match op {
            Op::Input { address, octets } => self.push_data("in ", *address, octets.as_slice()),
            Op::Diag {
                address,
                ext,
                stat,
                overflow,
                octets,
            } => {
                self.push_diag(*address, *ext, *stat, *overflow);
                self.push_octets(octets.as_slice());
            }
            Op::Busy { address, point, on } => self.push_busy(*address, *point, *on),
            Op::Tick(units) => self.push_tick(*units),
            Op::Halt => self.push_str("halt"),
        }
    }

    /// Appends the kind of an event with its space, an address and octets.
    #[tactic(auto, using(crate::proofs::Lengths::lengths))]
    fn push_data(&mut self, kind: &str, address: u8, octets: &[u8])
        requires kind { length kind.now ≤ 4 }
        requires octets { length octets.now ≤ 255 }
        requires room { length self.old + 518 ≤ LONGEST }
        ensures text { self.new ≡ self.old ++ (kind.now ++ decimal address ++ codes " " ++ octets_text octets.now) }
        ensures most { length self.new ≤ length self.old + 518 }
    {
        self.push_str(kind);
        self.push_octet(address);
        self.push_str(" ");
        self.push_octets(octets);
    }

    /// Appends a diagnosis without its octets.
    #[tactic(auto, using(crate::proofs::Lengths::lengths))]
    fn push_diag(&mut self, address: u8, ext: bool, stat: bool, overflow: bool)
        requires { length self.old + 13 ≤ LONGEST }
        ensures text { self.new ≡ self.old ++ (codes "diag " ++ decimal address ++ codes " " ++ flags_text ext stat overflow ++ codes " ") }
        ensures most { length self.new ≤ length self.old + 13 }
    {
        self.push_str("diag ");
        self.push_octet(address);
        self.push_str(" ");
        self.push_flags(ext, stat, overflow);
        self.push_str(" ");
    }

    #[tactic(auto, using(crate::proofs::Lengths::lengths))]
    fn push_flags(&mut self, ext: bool, stat: bool, overflow: bool)
        requires { length self.old + 3 ≤ LONGEST }
        ensures text { self.new ≡ self.old ++ flags_text ext stat overflow }
        ensures most { length self.new ≤ length self.old + 3 }
    {
        if ext || stat || overflow {
            self.push_letter(ext, "e");
            self.push_letter(stat, "s");
            self.push_letter(overflow, "o");
        } else {
            self.push_str("-");
        }
    }

    /// Appends a letter if its flag is set.
    #[tactic(auto, using(crate::proofs::Lengths::lengths))]
    fn push_letter(&mut self, set: bool, letter: &str)
        requires letter { length letter.now ≤ 1 }
        requires room { length self.old + 1 ≤ LONGEST }
        ensures text { self.new ≡ self.old ++ letter_where set letter.now }
        ensures most { length self.new ≤ length self.old + 1 }
    {
        if set {
            self.push_str(letter);
        }
    }

    #[tactic(auto, using(crate::proofs::Lengths::lengths))]
    fn push_busy(&mut self, address: u8, point: Option<u8>, on: bool)
        requires { length self.old + 20 ≤ LONGEST }
        ensures text { self.new ≡ self.old ++ (codes "busy " ++ decimal address ++ codes " " ++ point_text point ++ codes " " ++ on_or_off_text on) }
        ensures most { length self.new ≤ length self.old + 20 }
    {
        self.push_str("busy ");
        self.push_octet(address);
        self.push_str(" ");
        self.push_point(point);
        self.push_str(if on { " on" } else { " off" });
    }

    #[tactic(auto, using(crate::proofs::Lengths::lengths))]
    fn push_point(&mut self, point: Option<u8>)
        requires { length self.old + 7 ≤ LONGEST }
        ensures text { self.new ≡ self.old ++ point_text point }
        ensures most { length self.new ≤ length self.old + 7 }
    {
        match point {
            None => self.push_str("default"),
            Some(point) => self.push_octet(point),
        }
    }

    #[tactic(auto, using(crate::proofs::Lengths::lengths))]
    fn push_tick(&mut self, units: u32)
        requires { length self.old + 15 ≤ LONGEST }
        ensures text { self.new ≡ self.old ++ (codes "tick " ++ decimal units) }
        ensures most { length self.new ≤ length self.old + 15 }
    {
        self.push_str("tick ");
        self.push_number(units);
    }

    #[tactic(auto, using(crate::proofs::Lengths::lengths))]
    fn push_octets(&mut self, octets: &[u8])
        requires { length self.old + max 1 (2 * length octets.now) ≤ LONGEST }
        ensures text { self.new ≡ self.old ++ octets_text octets.now }
        ensures most { length self.new ≤ length self.old + max 1 (2 * length octets.now) }
    {
        match octets {
            [] => self.push_str("-"),
            [_, ..] => self.push_hex(octets),
        }
    }

    /// Appends addresses, each after a space.
    #[tactic(auto, using(crate::proofs::Lengths::lengths))]
    fn push_addresses(&mut self, addresses: &[u8])
        requires { length self.old + 4 * length addresses.now ≤ LONGEST }
        ensures text { self.new ≡ self.old ++ addresses_text addresses.now }
        ensures most { length self.new ≤ length self.old + 4 * length addresses.now }
    {
        let mut left = addresses;
        while let [address, rest @ ..] = left {
            self.push_str(" ");
            self.push_octet(*address);
            left = rest;
        }
    }

    #[tactic(auto, using(crate::proofs::Lengths::lengths))]
    fn push_slave(&mut self, slave: &SlaveView)
        requires { length self.old + 1_070 ≤ LONGEST }
        ensures text { self.new ≡ self.old ++ slave_text slave.now }
    {
        self.push_str("show ");
        self.push_octet(slave.address);
        self.push_str(" ");
        self.push_facts(&Some((slave.state, slave.holder)));
        self.push_str(" in ");
        self.push_octets(slave.inputs.as_slice());
        self.push_str(" out ");
        self.push_octets(slave.outputs.as_slice());
        self.push_str(" wd ");
        self.push_watchdog(slave.left);
        self.push_str("\n");
    }

    #[tactic(auto, using(crate::proofs::Lengths::lengths))]
    fn push_watchdog(&mut self, left: Option<u32>)
        requires { length self.old + 10 ≤ LONGEST }
        ensures text { self.new ≡ self.old ++ watchdog_text left }
        ensures most { length self.new ≤ length self.old + 10 }
    {
        match left {
            None => self.push_str("off"),
            Some(left) => self.push_number(left),
        }
    }
}
