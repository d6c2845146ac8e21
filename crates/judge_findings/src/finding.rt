//! The findings of an entry, as rows.

ghost use Rattle.std.specs.Prelude.{◌≡◌, option_map, Some};
ghost use Rattle.std.specs.List.{flat_map};
ghost use Rattle.judge_findings.specs.Findings.{before_row, finding_row, finding_rows_of, head_words, rule_words, shown_before, shows_before, telegram_rows};

use crate::receiver::{OctetsRow, ReceiverWords};
use explain_octets::Hex;
use judge_rules::{Entry, JudgeRule, MasterJudge};
use std::fmt;

/// An entry of a master, with the judge before it.
#[derive(Clone, Copy)]
pub struct Judged<'a> {
    /// The judge of the master, which has not taken the entry yet.
    pub judge: &'a MasterJudge,
    /// The entry.
    pub entry: &'a Entry,
    /// The place of the entry, from 1.
    pub place: u64,
    /// The address of the master.
    pub master: u8,
}

/// The findings of an entry by these rules, as rows: `place 5 master 1 slave 5 fcb-repeated: ..`, in a second row the octets
/// of the telegram, and for `fcb-repeated` in a third row, behind `before`, those of the telegram before to the same slave.
#[derive(Clone, Copy)]
pub struct FindingRows<'a> {
    /// The entry.
    pub judged: Judged<'a>,
    /// The rules, in the order of their findings.
    pub rules: &'a [JudgeRule],
}

impl<'a> fmt::Display for FindingRows<'a> {
    ghost output = { λ s. Some (flat_map (finding_rows_of s.judged.judge.now s.judged.entry.now s.judged.place s.judged.master) s.rules.now) };

    fn fmt<W: fmt::Write>(&self, f: &mut fmt::Formatter<W>) -> fmt::Result {
        for rule in self.rules {
            let row = RowIfBroken {
                judged: self.judged,
                rule: *rule,
            };
            write!(f, "{row}")?;
        }
        Ok(())
    }
}

/// The row of a rule, if the entry breaks it.
#[derive(Clone, Copy)]
struct RowIfBroken<'a> {
    judged: Judged<'a>,
    rule: JudgeRule,
}

impl<'a> fmt::Display for RowIfBroken<'a> {
    ghost output = { λ s. Some (finding_rows_of s.judged.judge.now s.judged.entry.now s.judged.place s.judged.master s.rule) };

    fn fmt<W: fmt::Write>(&self, f: &mut fmt::Formatter<W>) -> fmt::Result {
        let judged = self.judged;
        if judged.judge.breaks(judged.entry, self.rule) {
            let row = FindingRow {
                judged,
                rule: self.rule,
            };
            write!(f, "{row}")
        } else {
            Ok(())
        }
    }
}

/// A finding, as a row and its telegrams.
#[derive(Clone, Copy)]
struct FindingRow<'a> {
    judged: Judged<'a>,
    rule: JudgeRule,
}

impl<'a> fmt::Display for FindingRow<'a> {
    ghost output = { λ s. Some (finding_row s.judged.judge.now s.judged.entry.now s.judged.place s.judged.master s.rule) };

    fn fmt<W: fmt::Write>(&self, f: &mut fmt::Formatter<W>) -> fmt::Result {
        let judged = self.judged;
        let head = HeadWords {
            entry: judged.entry,
            place: judged.place,
            master: judged.master,
        };
        let rule = RuleWords(self.rule);
        let telegrams = TelegramRows {
            judged,
            rule: self.rule,
        };
        write!(f, "{head} {rule}\n{telegrams}")
    }
}

/// The place, the master and the receiver of a finding.
#[derive(Clone, Copy)]
struct HeadWords<'a> {
    entry: &'a Entry,
    place: u64,
    master: u8,
}

impl<'a> fmt::Display for HeadWords<'a> {
    ghost output = { λ s. Some (head_words s.entry.now s.place s.master) };

    #[tactic(auto, unfolding(crate::specs::Findings::head_words))]
    fn fmt<W: fmt::Write>(&self, f: &mut fmt::Formatter<W>) -> fmt::Result {
        let place = self.place;
        let master = self.master;
        let receiver = ReceiverWords(self.entry);
        write!(f, "place {place} master {master}{receiver}")
    }
}

/// The telegram of a finding, and the one before if the rule shows it, each as a row.
#[derive(Clone, Copy)]
struct TelegramRows<'a> {
    judged: Judged<'a>,
    rule: JudgeRule,
}

impl<'a> fmt::Display for TelegramRows<'a> {
    ghost output = { λ s. Some (telegram_rows s.judged.judge.now s.judged.entry.now s.rule) };

    #[tactic(auto, unfolding(crate::specs::Findings::telegram_rows))]
    fn fmt<W: fmt::Write>(&self, f: &mut fmt::Formatter<W>) -> fmt::Result {
        let Judged { judge, entry, .. } = self.judged;
        let octets = OctetsRow(entry);
        let before = BeforeRow(shown_before(judge, entry, self.rule));
        write!(f, "{octets}{before}")
    }
}

/// The telegram before, as a row; nothing if there is none.
#[derive(Clone, Copy)]
struct BeforeRow<'a>(Option<&'a [u8]>);

impl<'a> fmt::Display for BeforeRow<'a> {
    ghost output = { λ s. Some (before_row (option_map (λ octets. octets.now) s.0)) };

    fn fmt<W: fmt::Write>(&self, f: &mut fmt::Formatter<W>) -> fmt::Result {
        match self.0 {
            Some(octets) => {
                let octets = Hex(octets);
                write!(f, "  before {octets}\n")
            }
            None => Ok(()),
        }
    }
}

/// Returns the octets of the last SRD before the entry to the same slave, if a finding of the rule shows them.
pub(crate) fn shown_before<'a>(
    judge: &'a MasterJudge,
    entry: &Entry,
    rule: JudgeRule,
) -> Option<&'a [u8]>
    ensures { option_map (λ octets. octets.now) result ≡ shown_before judge.now entry.now rule }
{
    if shows_before(rule) {
        judge.srd_before(entry)
    } else {
        None
    }
}

/// Returns whether a finding of the rule shows the telegram before.
fn shows_before(rule: JudgeRule) -> bool
    ensures { result ≡ shows_before rule }
{
    matches!(rule, JudgeRule::FcbRepeated)
}

/// The name of a rule, and what it says.
#[derive(Clone, Copy)]
struct RuleWords(JudgeRule);

impl fmt::Display for RuleWords {
    ghost output = { λ s. Some (rule_words s.0) };

    fn fmt<W: fmt::Write>(&self, f: &mut fmt::Formatter<W>) -> fmt::Result {
        let name = self.0.name();
        let text = self.0.text();
        write!(f, "{name}: {text}")
    }
}
