//! The judge of one master, and how often the master broke each rule.

ghost use Rattle.std.specs.Prelude.{◌≡◌, ◌++◌, ◌∷◌, [], count_by, IfOk};
ghost use Rattle.judge_findings.specs.Counts.{count_at, counted, first_seat, has_error, is_error, is_failure, no_counts, one_more};
ghost use Rattle.judge_findings.specs.Lines.{is_seat_of};
ghost use Rattle.judge_findings.specs.Tested.{tested_after};

use crate::tested::Tested;
use judge_rules::{Entry, JudgeRule, MasterJudge, RULES, Severity};
use std::alloc::{AllocError, Global};

/// How often a master broke a rule.
#[derive(Clone, Copy, Debug)]
pub struct RuleCount {
    /// How often, at most the largest number of 64 bits.
    pub count: u64,
    /// The place of the first entry that broke it, from 1; 0 if none did.
    pub first: u64,
}

/// How often a master broke each rule.
#[derive(Debug, Drop)]
pub(crate) struct Counts {
    pub(crate) by_rule: [RuleCount; RULES],
}

/// The judge of one master, and how often the master broke each rule.
#[derive(Drop)]
pub struct Seat {
    pub(crate) master: u8,
    pub(crate) judge: MasterJudge,
    pub(crate) counts: Counts,
    pub(crate) tested: Tested,
}

impl Counts {
    /// Returns the counts before the first entry.
    fn new() -> Counts
        ensures { result ≡ no_counts }
    {
        Counts {
            by_rule: [RuleCount { count: 0, first: 0 }; RULES],
        }
    }

    /// Returns how often a rule was broken.
    pub(crate) fn of(&self, rule: JudgeRule) -> RuleCount
        ensures { result ≡ count_at self.now rule }
    {
        self.by_rule[rule.number()]
    }

    /// Counts that an entry at this place broke a rule.
    fn add(&mut self, rule: JudgeRule, place: u64)
        ensures { self.new ≡ one_more rule place self.old }
    {
        let number = rule.number();
        let RuleCount { count, first } = self.by_rule[number];
        self.by_rule[number] = RuleCount {
            count: count.saturating_add(1),
            first: if count == 0 { place } else { first },
        };
    }
}

impl Seat {
    /// Returns the judge of a master before its first entry, which may send a request again this many times. `AllocError`
    /// if memory runs out.
    pub(crate) fn new(alloc: Global, master: u8, retries: u8) -> Result<Seat, AllocError>
        ensures { IfOk result (λ seat. seat ≡ first_seat master retries) }
    {
        let judge = MasterJudge::new(alloc, retries)?;
        Ok(Seat {
            master,
            judge,
            counts: Counts::new(),
            tested: Tested {
                requests: 0,
                exchanges: 0,
            },
        })
    }

    /// Returns whether it is the judge of this master.
    pub(crate) fn is_of(&self, master: u8) -> bool
        ensures { result ≡ is_seat_of master self.now }
    {
        self.master == master
    }

    /// Returns the address of the master.
    pub fn master(&self) -> u8
        ensures { result ≡ self.now.master }
    {
        self.master
    }

    /// Returns the judge.
    pub fn judge(&self) -> &MasterJudge
        ensures { result.now ≡ self.now.judge }
    {
        &self.judge
    }

    /// Returns how much the master did.
    pub fn tested(&self) -> Tested
        ensures { result ≡ self.now.tested }
    {
        self.tested
    }

    /// Returns how often the master broke a rule.
    pub fn count_of(&self, rule: JudgeRule) -> RuleCount
        ensures { result ≡ count_at self.now.counts rule }
    {
        self.counts.of(rule)
    }

    /// Returns whether the master broke one of these rules whose severity is error.
    pub(crate) fn has_error(&self, rules: &[JudgeRule]) -> bool
        ensures { result ≡ has_error self.now.counts rules.now }
    {
        rules.iter().any(|rule| self.is_failure(*rule))
    }

    /// Returns how many of these rules whose severity is error the master broke.
    pub(crate) fn failures(&self, rules: &[JudgeRule]) -> usize
        ensures { result ≡ count_by (is_failure self.now.counts) rules.now }
    {
        let mut failures = 0;
        for rule in rules {
            if self.is_failure(*rule) {
                failures += 1;
            }
        }
        failures
    }

    /// Returns whether the master broke the rule, and that is an error.
    fn is_failure(&self, rule: JudgeRule) -> bool
        ensures { result ≡ is_failure self.now.counts rule }
    {
        is_error(rule) && self.counts.of(rule).count != 0
    }

    /// Counts which of these rules the next entry of the master breaks, and takes it.
    pub(crate) fn take(&mut self, entry: &Entry, place: u64, rules: &[JudgeRule])
        ensures { self.new ≡ record self.old {
          judge = record self.old.judge { past = self.old.judge.past ++ entry.now ∷ [] };
          counts = counted self.old.judge entry.now place rules.now self.old.counts;
          tested = tested_after entry.now self.old.tested;
        } }
    {
        count_broken(&mut self.counts, &self.judge, entry, place, rules);
        self.tested.take(entry);
        self.judge.take(entry);
    }
}

/// Returns whether to break the rule is an error.
fn is_error(rule: JudgeRule) -> bool
    ensures { result ≡ is_error rule }
{
    matches!(rule.severity(), Severity::Error)
}

/// Counts which of these rules the next entry of a master breaks.
fn count_broken(
    counts: &mut Counts,
    judge: &MasterJudge,
    entry: &Entry,
    place: u64,
    rules: &[JudgeRule],
)
    ensures { counts.new ≡ counted judge.now entry.now place rules.now counts.old }
{
    let mut left = rules;
    while let [rule, others @ ..] = left {
        if judge.breaks(entry, *rule) {
            counts.add(*rule, place);
        }
        left = others;
    }
}
