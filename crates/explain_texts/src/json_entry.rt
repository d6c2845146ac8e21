//! An entry as a line of JSON, made of its facts.

use crate::json_event::LABEL_COLUMNS;
use crate::json_field::{Fields, number_or_null, octet, octet_or_null, truth, word};
use crate::json_names::{
    ending_name, outcome_name, receiver_address, receiver_name, sender_address, sender_name,
};
use crate::json_reason::{FactsOfKind, line_facts, operator_facts, operator_outcome, slave_facts};
use crate::json_text::JsonText;
use dp_line::{Event, Op, Outcome, is_refused};
use dp_responder::Rule;
use explain_events::{
    Change, Ending, EventContext, ExplainedEntry, ReadEvent, ReadOctets, Reason, Receiver,
    ResultSentence, SenderAndReceiver, SlaveSentence, StateAndHolder, answered, change_at,
    expired_at, is_fault, line_reason, op_result, reason_at, same_holder, state_name, touched,
};
use explain_octets::Reply;

impl JsonText {
    /// Makes the text the line of an entry but for its front, which ends with the place.
    pub(crate) fn set_entry(&mut self, entry: &ExplainedEntry<'_>) {
        self.clear();
        let event = ReadEvent::new(entry.event);
        let context = entry.context;
        self.route(context.time, SenderAndReceiver::from_event(entry.event));
        self.event(&event);
        self.answer(entry, &event);
        self.judgement(entry);
        self.result(entry, &event);
        let addresses = touched(&event, entry.outcome);
        self.changes(entry, addresses.as_slice());
        self.releases(entry, addresses.as_slice());
        self.end_line();
    }

    /// Appends the time before an event, its sender and its receiver.
    fn route(&mut self, time: Option<u64>, sent: SenderAndReceiver) {
        self.fields(&[
            number_or_null("time", time),
            word("from", sender_name(sent)),
            octet_or_null("master", sender_address(sent)),
            word("to", receiver_name(sent)),
            octet_or_null("address", receiver_address(sent)),
        ]);
    }

    // ---- the answer

    /// Appends a field with the answer to an event.
    fn answer(&mut self, entry: &ExplainedEntry<'_>, event: &ReadEvent<'_>) {
        self.open("answer");
        match event.event() {
            Event::Request { master, .. } => self.request_answer(entry, *master, event.request()),
            Event::Operator(op) => {
                self.one(word("outcome", outcome_of_op(entry, op)));
                self.no_rule();
            }
        }
        self.close();
    }

    fn request_answer(&mut self, entry: &ExplainedEntry<'_>, master: u8, request: &ReadOctets<'_>) {
        match entry.outcome {
            Outcome::Reply { octets, rule } => {
                self.fields(&rule_fields(*rule));
                self.hex("octets", octets.as_slice());
                let way = answered(entry.context, master, request, *rule);
                self.reply(request, octets.as_slice(), way.is_judged_afterwards());
            }
            Outcome::Silence(rule) => self.silence(*rule),
            Outcome::Done => self.silence(Rule::Done),
            Outcome::Spread(_) => self.no_reply_of("spread"),
            Outcome::Released(_) => self.no_reply_of("released"),
            Outcome::Refused(_) => self.no_reply_of("refused"),
        }
    }

    /// Appends the fields of an answer to which nobody replies.
    fn silence(&mut self, rule: Rule) {
        self.fields(&rule_fields(rule));
        self.null("octets");
        self.null("words");
    }

    /// Appends the fields of an outcome without a rule.
    fn no_reply_of(&mut self, outcome: &'static str) {
        self.one(word("outcome", outcome));
        self.no_rule();
    }

    fn no_rule(&mut self) {
        self.null("rule");
        self.null("octets");
        self.null("words");
    }

    /// Appends a reply in words.
    fn reply(&mut self, request: &ReadOctets<'_>, octets: &[u8], is_judged_afterwards: bool) {
        let reply = ReadOctets::new(octets);
        match Reply::from_octets(request, &reply, is_judged_afterwards) {
            Some(reply) => self.words_behind("words", LABEL_COLUMNS, &reply),
            None => self.null("words"),
        }
    }

    /// Appends whether an event was refused, and whether it shows a fault of the bus.
    fn judgement(&mut self, entry: &ExplainedEntry<'_>) {
        self.one(truth("refused", is_refused(entry.event, entry.outcome)));
        self.one(truth("fault", is_fault(entry.context, entry.event, entry.outcome)));
    }

    // ---- the reason

    /// Appends the facts of an answer, whether they surprise, and its sentence; of a request to all slaves also those of each
    /// slave.
    fn result(&mut self, entry: &ExplainedEntry<'_>, event: &ReadEvent<'_>) {
        match event.event() {
            Event::Request { master, .. } => self.request_reason(entry, *master, event.request()),
            Event::Operator(op) => {
                self.one(truth("surprising", false));
                self.reason(facts_of_op(entry, op));
            }
        }
        self.words(
            "sentence",
            &ResultSentence {
                context: entry.context,
                event,
                outcome: entry.outcome,
            },
        );
        self.open_list("slaves");
        match event.event() {
            Event::Request { master, .. } => self.slaves(entry, *master, event.request()),
            Event::Operator(_) => {}
        }
        self.close_list();
    }

    fn request_reason(&mut self, entry: &ExplainedEntry<'_>, master: u8, request: &ReadOctets<'_>) {
        match rule_of(entry.outcome) {
            Some(rule) => {
                let at = reason_of(entry.context, master, request, rule);
                self.one(truth("surprising", surprises(at)));
                match at {
                    Some(reason) => self.reason(Some(slave_facts(reason))),
                    None => self.reason(facts_of_line(entry.context, master, request, rule)),
                }
            }
            None => {
                self.one(truth("surprising", false));
                self.reason(None);
            }
        }
    }

    /// Appends the answers of the slaves to a request to all.
    fn slaves(&mut self, entry: &ExplainedEntry<'_>, master: u8, request: &ReadOctets<'_>) {
        for pair in pairs_of(entry.outcome) {
            self.slave_answer(entry.context, master, request, *pair);
        }
    }

    fn slave_answer(
        &mut self,
        context: &EventContext<'_>,
        master: u8,
        request: &ReadOctets<'_>,
        pair: (u8, Rule),
    ) {
        let (address, rule) = pair;
        self.open_element();
        self.one(octet("slave", address));
        self.fields(&rule_fields(rule));
        let facts = match reason_at(context, master, request, address, rule) {
            Some(reason) => Some(slave_facts(reason)),
            None => None,
        };
        self.reason(facts);
        self.words(
            "sentence",
            &SlaveSentence {
                context,
                master,
                request,
                pair,
            },
        );
        self.close();
    }

    // ---- the changes

    /// Appends the changes of those of these slaves that an event changed.
    fn changes(&mut self, entry: &ExplainedEntry<'_>, addresses: &[u8]) {
        let context = entry.context;
        self.open_list("changes");
        for address in addresses {
            if let Some(change) = change_at(context.before, entry.after, *address) {
                self.change(change);
            }
        }
        self.close_list();
    }

    /// Appends the releases of those of these slaves that an event released.
    fn releases(&mut self, entry: &ExplainedEntry<'_>, addresses: &[u8]) {
        let context = entry.context;
        let ending = Ending::by(entry.event);
        self.open_list("releases");
        for address in addresses {
            if let Some(change) = change_at(context.before, entry.after, *address) {
                self.release(context, change, ending);
            }
        }
        self.close_list();
    }

    fn change(&mut self, change: Change) {
        self.open_element();
        self.one(octet("slave", change.address));
        self.state_and_holder("before", change.before);
        self.state_and_holder("after", change.after);
        self.close();
    }

    fn state_and_holder(&mut self, key: &str, of: StateAndHolder) {
        self.open(key);
        self.one(word("state", state_name(of.state)));
        self.one(octet_or_null("holder", of.holder));
        self.close();
    }

    /// Appends a release, if the change ended a hold.
    fn release(&mut self, context: &EventContext<'_>, change: Change, ending: Ending) {
        let Some(holder) = change.before.holder else {
            return;
        };
        if same_holder(change.before.holder, change.after.holder) {
            return;
        }
        self.open_element();
        self.fields(&[
            octet("slave", change.address),
            octet("master", holder),
            word("ending", ending_name(ending)),
            number_or_null("watchdog", watchdog_of(context, change.address, ending)),
            None,
        ]);
        self.close();
    }
}

/// Returns the time of the watchdog that released a slave, in units of 10 ms; None if the release was by something else.
fn watchdog_of(context: &EventContext<'_>, address: u8, ending: Ending) -> Option<u64> {
    match ending {
        Ending::Watchdog => match expired_at(context.before, address).watchdog {
            Some(units) => Some(u64::from(units)),
            None => None,
        },
        Ending::WrongConfiguration => None,
        Ending::WrongParameters => None,
        Ending::Unlocked => None,
        Ending::Halted => None,
        Ending::Lasts => None,
    }
}

/// Returns the outcome of an answer by this rule, and the rule.
fn rule_fields(rule: Rule) -> Fields {
    [
        word("outcome", outcome_name(rule)),
        word("rule", rule.name()),
        None,
        None,
        None,
    ]
}

/// Returns the one rule that answered a request; None for a request to all slaves.
fn rule_of(outcome: &Outcome) -> Option<Rule> {
    match outcome {
        Outcome::Reply { rule, .. } => Some(*rule),
        Outcome::Silence(rule) => Some(*rule),
        Outcome::Done => Some(Rule::Done),
        Outcome::Spread(_) => None,
        Outcome::Released(_) => None,
        Outcome::Refused(_) => None,
    }
}

/// Returns the slaves that a request to all slaves reached, and the rule by which each answered.
fn pairs_of(outcome: &Outcome) -> &[(u8, Rule)] {
    match outcome {
        Outcome::Spread(pairs) => pairs.as_slice(),
        Outcome::Reply { .. } => &[],
        Outcome::Silence(_) => &[],
        Outcome::Released(_) => &[],
        Outcome::Done => &[],
        Outcome::Refused(_) => &[],
    }
}

/// Returns the facts of the answer of the slave that a request is sent to; None if a rule of the line answered.
fn reason_of(
    context: &EventContext<'_>,
    master: u8,
    request: &ReadOctets<'_>,
    rule: Rule,
) -> Option<Reason> {
    match Receiver::of_request(request) {
        Receiver::Slave(address) => reason_at(context, master, request, address, rule),
        Receiver::AllSlaves => None,
        Receiver::Station(_) => None,
        Receiver::Nobody => None,
    }
}

/// Returns why nobody replied to a request, by a rule that concerns the line.
fn facts_of_line(
    context: &EventContext<'_>,
    master: u8,
    request: &ReadOctets<'_>,
    rule: Rule,
) -> Option<FactsOfKind> {
    match line_reason(context.line.masters.as_slice(), master, request, rule) {
        Some(reason) => Some(line_facts(reason)),
        None => None,
    }
}

/// Returns whether what a slave did surprises.
fn surprises(reason: Option<Reason>) -> bool {
    match reason {
        Some(Reason::Done(done)) => done.is_surprising(),
        Some(Reason::Status { .. }) => false,
        Some(Reason::NoService { .. }) => false,
        Some(Reason::Repeat(_)) => false,
        Some(Reason::NoPoint { .. }) => false,
        Some(Reason::PointOff { .. }) => false,
        Some(Reason::NotHolder { .. }) => false,
        Some(Reason::NotListed { .. }) => false,
        Some(Reason::Busy { .. }) => false,
        Some(Reason::Length { .. }) => false,
        Some(Reason::NotSelected { .. }) => false,
        None => false,
    }
}

/// Returns the result of an event of the operator.
fn facts_of_op(entry: &ExplainedEntry<'_>, op: &Op) -> Option<FactsOfKind> {
    let context = entry.context;
    match op_result(context.before, op, entry.outcome) {
        Some(result) => Some(operator_facts(result)),
        None => None,
    }
}

fn outcome_of_op(entry: &ExplainedEntry<'_>, op: &Op) -> &'static str {
    let context = entry.context;
    match op_result(context.before, op, entry.outcome) {
        Some(result) => operator_outcome(result),
        None => "done",
    }
}
