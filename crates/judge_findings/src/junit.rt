//! The findings as JUnit XML: one test case for each master and rule, and one for the text.

ghost use Rattle.std.specs.Prelude.{Some};
ghost use Rattle.std.specs.List.{flat_map};
ghost use Rattle.judge_findings.specs.Summary.{case_inside, cases_of_seat, test_case};

use crate::seat::{RuleCount, Seat};
use crate::summary::TimesWords;
use crate::tested::Least;
use crate::untested::{AtLeastWords, exchanges_of, lacks_requests};
use judge_rules::{JudgeRule, Severity};
use std::fmt;

/// The verdict on the text, as the test case of the text shows it.
#[derive(Clone, Copy)]
pub enum JunitVerdict {
    /// The text is legal.
    Legal,
    /// The row with this number is badly formed.
    BadLine(u64),
    /// The row with this number is not what the policy gives.
    NotThePolicy(u64),
}

/// The findings of the masters of a line by these rules, as JUnit XML.
#[derive(Clone, Copy)]
pub struct Junit<'a> {
    /// The masters.
    pub seats: &'a [Seat],
    /// The rules.
    pub rules: &'a [JudgeRule],
    /// The verdict on the text.
    pub verdict: JunitVerdict,
    /// How much the masters must do; a test case of what is untested is skipped.
    pub least: Least,
}

impl<'a> fmt::Display for Junit<'a> {
    fn fmt<W: fmt::Write>(&self, f: &mut fmt::Formatter<W>) -> fmt::Result {
        let tests = self.tests();
        let failures = self.failures();
        let skipped = self.skipped();
        write!(f, "<?xml version=\"1.0\" encoding=\"UTF-8\"?>\n")?;
        write!(
            f,
            "<testsuite name=\"rackd judge\" tests=\"{tests}\" failures=\"{failures}\" skipped=\"{skipped}\">\n"
        )?;
        let text = TextCase(self.verdict);
        let exchanges = ExchangesCase {
            seats: self.seats,
            least: self.least.exchanges,
        };
        write!(f, "{text}{exchanges}")?;
        for seat in self.seats {
            let requests = RequestsCase {
                seat,
                least: self.least,
            };
            write!(f, "{requests}")?;
        }
        let cases = SeatsCases {
            seats: self.seats,
            rules: self.rules,
        };
        write!(f, "{cases}</testsuite>\n")
    }
}

impl Junit<'_> {
    /// Returns the number of test cases: two of the text, and of each master one and one for each rule.
    fn tests(&self) -> usize {
        let of_master = self.rules.len().saturating_add(1);
        self.seats.len().saturating_mul(of_master).saturating_add(2)
    }

    /// Returns the number of test cases that are skipped, since something is untested.
    fn skipped(&self) -> usize {
        let mut skipped: usize = 0;
        if exchanges_of(self.seats) < self.least.exchanges {
            skipped = 1;
        }
        for seat in self.seats {
            if lacks_requests(seat, self.least) {
                skipped = skipped.saturating_add(1);
            }
        }
        skipped
    }

    /// Returns the number of test cases that fail.
    fn failures(&self) -> usize {
        let mut failures: usize = match self.verdict {
            JunitVerdict::Legal => 0,
            JunitVerdict::BadLine(_) => 1,
            JunitVerdict::NotThePolicy(_) => 1,
        };
        for seat in self.seats {
            failures = failures.saturating_add(seat.failures(self.rules));
        }
        failures
    }
}

/// The test case of the text.
#[derive(Clone, Copy)]
struct TextCase(JunitVerdict);

impl fmt::Display for TextCase {
    fn fmt<W: fmt::Write>(&self, f: &mut fmt::Formatter<W>) -> fmt::Result {
        write!(f, "<testcase classname=\"text\" name=\"legal\">")?;
        match self.0 {
            JunitVerdict::Legal => {}
            JunitVerdict::BadLine(row) => {
                write!(f, "<failure type=\"error\" message=\"bad line {row}\"/>")?;
            }
            JunitVerdict::NotThePolicy(row) => {
                write!(
                    f,
                    "<failure type=\"error\" message=\"not the policy {row}\"/>"
                )?;
            }
        }
        write!(f, "</testcase>\n")
    }
}

/// The test case of the Data_Exchanges that were answered: it is skipped if they are fewer than are required.
#[derive(Clone, Copy)]
struct ExchangesCase<'a> {
    seats: &'a [Seat],
    least: u64,
}

impl<'a> fmt::Display for ExchangesCase<'a> {
    fn fmt<W: fmt::Write>(&self, f: &mut fmt::Formatter<W>) -> fmt::Result {
        let count = exchanges_of(self.seats);
        let least = self.least;
        write!(f, "<testcase classname=\"text\" name=\"tested\">")?;
        if count < least {
            let words = AtLeastWords { count, least };
            write!(f, "<skipped message=\"untested: exchanges {words}\"/>")?;
        }
        write!(f, "</testcase>\n")
    }
}

/// The test case of the requests of a master: it is skipped if they are fewer than are required.
#[derive(Clone, Copy)]
struct RequestsCase<'a> {
    seat: &'a Seat,
    least: Least,
}

impl<'a> fmt::Display for RequestsCase<'a> {
    fn fmt<W: fmt::Write>(&self, f: &mut fmt::Formatter<W>) -> fmt::Result {
        let master = self.seat.master;
        write!(
            f,
            "<testcase classname=\"master {master}\" name=\"tested\">"
        )?;
        if lacks_requests(self.seat, self.least) {
            let requests = self.seat.tested.requests;
            let least = self.least.requests;
            write!(
                f,
                "<skipped message=\"untested: requests {requests}, at least {least}\"/>"
            )?;
        }
        write!(f, "</testcase>\n")
    }
}

/// The test cases of these masters.
#[derive(Clone, Copy)]
struct SeatsCases<'a> {
    seats: &'a [Seat],
    rules: &'a [JudgeRule],
}

impl<'a> fmt::Display for SeatsCases<'a> {
    ghost output = { λ s. Some (flat_map (cases_of_seat s.rules.now) s.seats.now) };

    fn fmt<W: fmt::Write>(&self, f: &mut fmt::Formatter<W>) -> fmt::Result {
        for seat in self.seats {
            let cases = SeatCases {
                seat,
                rules: self.rules,
            };
            write!(f, "{cases}")?;
        }
        Ok(())
    }
}

/// The test cases of a master.
#[derive(Clone, Copy)]
struct SeatCases<'a> {
    seat: &'a Seat,
    rules: &'a [JudgeRule],
}

impl<'a> fmt::Display for SeatCases<'a> {
    ghost output = { λ s. Some (cases_of_seat s.rules.now s.seat.now) };

    fn fmt<W: fmt::Write>(&self, f: &mut fmt::Formatter<W>) -> fmt::Result {
        for rule in self.rules {
            let case = TestCase {
                seat: self.seat,
                rule: *rule,
            };
            write!(f, "{case}")?;
        }
        Ok(())
    }
}

/// The test case of a master and a rule.
#[derive(Clone, Copy)]
struct TestCase<'a> {
    seat: &'a Seat,
    rule: JudgeRule,
}

impl<'a> fmt::Display for TestCase<'a> {
    ghost output = { λ s. Some (test_case s.seat.now s.rule) };

    #[tactic(auto, unfolding(crate::specs::Summary::test_case))]
    fn fmt<W: fmt::Write>(&self, f: &mut fmt::Formatter<W>) -> fmt::Result {
        let master = self.seat.master;
        let name = self.rule.name();
        let inside = CaseInside {
            rule: self.rule,
            count: self.seat.count_of(self.rule),
        };
        write!(
            f,
            "<testcase classname=\"master {master}\" name=\"{name}\">{inside}</testcase>\n"
        )
    }
}

/// What a test case has of a rule that was broken; nothing if it was kept.
#[derive(Clone, Copy)]
struct CaseInside {
    rule: JudgeRule,
    count: RuleCount,
}

impl fmt::Display for CaseInside {
    ghost output = { λ s. Some (case_inside s.rule s.count) };

    fn fmt<W: fmt::Write>(&self, f: &mut fmt::Formatter<W>) -> fmt::Result {
        if self.count.count == 0 {
            return Ok(());
        }
        let times = TimesWords(self.count);
        let text = self.rule.text();
        match self.rule.severity() {
            Severity::Error => {
                write!(
                    f,
                    "<failure type=\"error\" message=\"{times}\">{text}</failure>"
                )
            }
            Severity::Warning => { write!(f, "<system-out>warning: {times}: {text}</system-out>") }
        }
    }
}
