//! The findings of an entry, as lines of JSON.

ghost use Rattle.std.specs.Prelude.{option_map, Some};
ghost use Rattle.std.specs.List.{flat_map};
ghost use Rattle.judge_findings.specs.Findings.{before_field, finding_fields, finding_line, finding_lines_of, head_fields, octets_field, rule_fields};

use crate::finding::{Judged, shown_before};
use crate::receiver::{EntryPairs, Pairs, SlaveValue};
use judge_rules::{Entry, JudgeRule};
use std::fmt;

/// The findings of an entry by these rules, each as a line of JSON.
#[derive(Clone, Copy)]
pub struct FindingLines<'a> {
    /// The entry.
    pub judged: Judged<'a>,
    /// The rules, in the order of their findings.
    pub rules: &'a [JudgeRule],
}

impl<'a> fmt::Display for FindingLines<'a> {
    ghost output = { λ s. Some (flat_map (finding_lines_of s.judged.judge.now s.judged.entry.now s.judged.place s.judged.master) s.rules.now) };

    fn fmt<W: fmt::Write>(&self, f: &mut fmt::Formatter<W>) -> fmt::Result {
        for rule in self.rules {
            let line = LineIfBroken {
                judged: self.judged,
                rule: *rule,
            };
            write!(f, "{line}")?;
        }
        Ok(())
    }
}

/// The line of a rule, if the entry breaks it.
#[derive(Clone, Copy)]
struct LineIfBroken<'a> {
    judged: Judged<'a>,
    rule: JudgeRule,
}

impl<'a> fmt::Display for LineIfBroken<'a> {
    ghost output = { λ s. Some (finding_lines_of s.judged.judge.now s.judged.entry.now s.judged.place s.judged.master s.rule) };

    fn fmt<W: fmt::Write>(&self, f: &mut fmt::Formatter<W>) -> fmt::Result {
        let judged = self.judged;
        if judged.judge.breaks(judged.entry, self.rule) {
            let line = FindingLine {
                judged,
                rule: self.rule,
            };
            write!(f, "{line}")
        } else {
            Ok(())
        }
    }
}

/// A finding, as a line of JSON.
#[derive(Clone, Copy)]
struct FindingLine<'a> {
    judged: Judged<'a>,
    rule: JudgeRule,
}

impl<'a> fmt::Display for FindingLine<'a> {
    ghost output = { λ s. Some (finding_line s.judged.judge.now s.judged.entry.now s.judged.place s.judged.master s.rule) };

    fn fmt<W: fmt::Write>(&self, f: &mut fmt::Formatter<W>) -> fmt::Result {
        let fields = FindingFields {
            judged: self.judged,
            rule: self.rule,
        };
        write!(f, "{{{fields}}}\n")
    }
}

/// The fields of a finding.
#[derive(Clone, Copy)]
struct FindingFields<'a> {
    judged: Judged<'a>,
    rule: JudgeRule,
}

impl<'a> fmt::Display for FindingFields<'a> {
    ghost output = { λ s. Some (finding_fields s.judged.judge.now s.judged.entry.now s.judged.place s.judged.master s.rule) };

    #[tactic(auto, unfolding(crate::specs::Findings::finding_fields))]
    fn fmt<W: fmt::Write>(&self, f: &mut fmt::Formatter<W>) -> fmt::Result {
        let judged = self.judged;
        let head = HeadFields {
            entry: judged.entry,
            place: judged.place,
            master: judged.master,
        };
        let rule = RuleFields(self.rule);
        let octets = OctetsField(judged.entry);
        let before = BeforeField(shown_before(judged.judge, judged.entry, self.rule));
        write!(f, "{head},{rule},{octets}{before}")
    }
}

/// The field of the telegram before, with a comma in front; nothing if there is none.
#[derive(Clone, Copy)]
struct BeforeField<'a>(Option<&'a [u8]>);

impl<'a> fmt::Display for BeforeField<'a> {
    ghost output = { λ s. Some (before_field (option_map (λ octets. octets.now) s.0)) };

    fn fmt<W: fmt::Write>(&self, f: &mut fmt::Formatter<W>) -> fmt::Result {
        match self.0 {
            Some(octets) => {
                let pairs = Pairs(octets);
                write!(f, ",\"before\":\"{pairs}\"")
            }
            None => Ok(()),
        }
    }
}

/// The field of the octets.
#[derive(Clone, Copy)]
struct OctetsField<'a>(&'a Entry);

impl<'a> fmt::Display for OctetsField<'a> {
    ghost output = { λ s. Some (octets_field s.0.now) };

    #[tactic(auto, unfolding(crate::specs::Findings::octets_field))]
    fn fmt<W: fmt::Write>(&self, f: &mut fmt::Formatter<W>) -> fmt::Result {
        let octets = EntryPairs(self.0);
        write!(f, "\"octets\":\"{octets}\"")
    }
}

/// The fields of the place and of the stations.
#[derive(Clone, Copy)]
struct HeadFields<'a> {
    entry: &'a Entry,
    place: u64,
    master: u8,
}

impl<'a> fmt::Display for HeadFields<'a> {
    ghost output = { λ s. Some (head_fields s.entry.now s.place s.master) };

    #[tactic(auto, unfolding(crate::specs::Findings::head_fields))]
    fn fmt<W: fmt::Write>(&self, f: &mut fmt::Formatter<W>) -> fmt::Result {
        let place = self.place;
        let master = self.master;
        let slave = SlaveValue(self.entry);
        write!(f, "\"place\":{place},\"master\":{master},\"slave\":{slave}")
    }
}

/// The fields of a rule.
#[derive(Clone, Copy)]
pub(crate) struct RuleFields(pub(crate) JudgeRule);

impl fmt::Display for RuleFields {
    ghost output = { λ s. Some (rule_fields s.0) };

    #[tactic(auto, unfolding(crate::specs::Findings::rule_fields))]
    fn fmt<W: fmt::Write>(&self, f: &mut fmt::Formatter<W>) -> fmt::Result {
        let name = self.0.name();
        let severity = self.0.severity().name();
        let subject = self.0.subject();
        let text = self.0.text();
        write!(
            f,
            "\"rule\":\"{name}\",\"severity\":\"{severity}\",\"standard\":\"{subject}\",\"text\":\"{text}\""
        )
    }
}
