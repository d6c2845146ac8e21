//! How often the masters of a line broke each rule, as rows and as lines of JSON.

ghost use Rattle.std.specs.Prelude.{Some};
ghost use Rattle.std.specs.List.{flat_map};
ghost use Rattle.judge_findings.specs.Summary.{count_fields, count_line, count_row, lines_of_seat, named_rule, rows_of_seat, times_fields, times_words};

use crate::json::RuleFields;
use crate::seat::{RuleCount, Seat};
use judge_rules::JudgeRule;
use std::fmt;

/// How often each master broke each of these rules, as rows: `  master 1 fcb-repeated error 3 times, first at place 5`. A
/// rule that a master kept has no row.
#[derive(Clone, Copy)]
pub struct CountRows<'a> {
    /// The masters.
    pub seats: &'a [Seat],
    /// The rules.
    pub rules: &'a [JudgeRule],
}

impl<'a> fmt::Display for CountRows<'a> {
    ghost output = { λ s. Some (flat_map (rows_of_seat s.rules.now) s.seats.now) };

    fn fmt<W: fmt::Write>(&self, f: &mut fmt::Formatter<W>) -> fmt::Result {
        for seat in self.seats {
            let rows = SeatRows {
                seat,
                rules: self.rules,
            };
            write!(f, "{rows}")?;
        }
        Ok(())
    }
}

/// The rows of a master.
#[derive(Clone, Copy)]
struct SeatRows<'a> {
    seat: &'a Seat,
    rules: &'a [JudgeRule],
}

impl<'a> fmt::Display for SeatRows<'a> {
    ghost output = { λ s. Some (rows_of_seat s.rules.now s.seat.now) };

    fn fmt<W: fmt::Write>(&self, f: &mut fmt::Formatter<W>) -> fmt::Result {
        for rule in self.rules {
            let row = CountRow {
                seat: self.seat,
                rule: *rule,
            };
            write!(f, "{row}")?;
        }
        Ok(())
    }
}

/// The row of a master and a rule; nothing if the master kept it.
#[derive(Clone, Copy)]
struct CountRow<'a> {
    seat: &'a Seat,
    rule: JudgeRule,
}

impl<'a> fmt::Display for CountRow<'a> {
    ghost output = { λ s. Some (count_row s.seat.now s.rule) };

    fn fmt<W: fmt::Write>(&self, f: &mut fmt::Formatter<W>) -> fmt::Result {
        let count = self.seat.count_of(self.rule);
        if count.count == 0 {
            return Ok(());
        }
        let master = self.seat.master;
        let rule = NamedRule(self.rule);
        let times = TimesWords(count);
        write!(f, "  master {master} {rule} {times}\n")
    }
}

/// The name of a rule, and its severity.
#[derive(Clone, Copy)]
struct NamedRule(JudgeRule);

impl fmt::Display for NamedRule {
    ghost output = { λ s. Some (named_rule s.0) };

    fn fmt<W: fmt::Write>(&self, f: &mut fmt::Formatter<W>) -> fmt::Result {
        let name = self.0.name();
        let severity = self.0.severity().name();
        write!(f, "{name} {severity}")
    }
}

/// How often a rule was broken, and where first.
#[derive(Clone, Copy)]
pub(crate) struct TimesWords(pub(crate) RuleCount);

impl fmt::Display for TimesWords {
    ghost output = { λ s. Some (times_words s.0) };

    fn fmt<W: fmt::Write>(&self, f: &mut fmt::Formatter<W>) -> fmt::Result {
        let RuleCount { count, first } = self.0;
        write!(f, "{count}, first at place {first}")
    }
}

/// How often each master broke each of these rules, as lines of JSON. A rule that a master kept has no line.
#[derive(Clone, Copy)]
pub struct CountLines<'a> {
    /// The masters.
    pub seats: &'a [Seat],
    /// The rules.
    pub rules: &'a [JudgeRule],
}

impl<'a> fmt::Display for CountLines<'a> {
    ghost output = { λ s. Some (flat_map (lines_of_seat s.rules.now) s.seats.now) };

    fn fmt<W: fmt::Write>(&self, f: &mut fmt::Formatter<W>) -> fmt::Result {
        for seat in self.seats {
            let lines = SeatLines {
                seat,
                rules: self.rules,
            };
            write!(f, "{lines}")?;
        }
        Ok(())
    }
}

/// The lines of a master.
#[derive(Clone, Copy)]
struct SeatLines<'a> {
    seat: &'a Seat,
    rules: &'a [JudgeRule],
}

impl<'a> fmt::Display for SeatLines<'a> {
    ghost output = { λ s. Some (lines_of_seat s.rules.now s.seat.now) };

    fn fmt<W: fmt::Write>(&self, f: &mut fmt::Formatter<W>) -> fmt::Result {
        for rule in self.rules {
            let line = CountLine {
                seat: self.seat,
                rule: *rule,
            };
            write!(f, "{line}")?;
        }
        Ok(())
    }
}

/// The line of a master and a rule; nothing if the master kept it.
#[derive(Clone, Copy)]
struct CountLine<'a> {
    seat: &'a Seat,
    rule: JudgeRule,
}

impl<'a> fmt::Display for CountLine<'a> {
    ghost output = { λ s. Some (count_line s.seat.now s.rule) };

    fn fmt<W: fmt::Write>(&self, f: &mut fmt::Formatter<W>) -> fmt::Result {
        let count = self.seat.count_of(self.rule);
        if count.count == 0 {
            return Ok(());
        }
        let fields = CountFields {
            seat: self.seat,
            rule: self.rule,
        };
        write!(f, "{{\"summary\":{{{fields}}}}}\n")
    }
}

/// The fields of a master, a rule, and their count.
#[derive(Clone, Copy)]
struct CountFields<'a> {
    seat: &'a Seat,
    rule: JudgeRule,
}

impl<'a> fmt::Display for CountFields<'a> {
    ghost output = { λ s. Some (count_fields s.seat.now s.rule) };

    #[tactic(auto, unfolding(crate::specs::Summary::count_fields))]
    fn fmt<W: fmt::Write>(&self, f: &mut fmt::Formatter<W>) -> fmt::Result {
        let master = self.seat.master;
        let rule = RuleFields(self.rule);
        let times = TimesFields(self.seat.count_of(self.rule));
        write!(f, "\"master\":{master},{rule},{times}")
    }
}

/// The fields of a count.
#[derive(Clone, Copy)]
struct TimesFields(RuleCount);

impl fmt::Display for TimesFields {
    ghost output = { λ s. Some (times_fields s.0) };

    fn fmt<W: fmt::Write>(&self, f: &mut fmt::Formatter<W>) -> fmt::Result {
        let RuleCount { count, first } = self.0;
        write!(f, "\"count\":{count},\"first\":{first}")
    }
}
