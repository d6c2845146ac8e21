//! The judgement of a request, before it is served.

ghost use Rattle.std.specs.Prelude.{◌≡◌, ◌≢◌, Option, Some, length, true};
ghost use Rattle.dp_telegram.specs.FunctionCode.{asks_sdn, function_of};
ghost use Rattle.dp_sap.specs.AccessTable.{access_row, is_listed};
ghost use Rattle.dp_responder.specs.declared.judgement.Judged.TheVariants as verdicts;
ghost use Rattle.dp_responder.specs.declared.rule.Rule.TheVariants as rules;
ghost use Rattle.dp_responder.specs.Rules.{first_row};
ghost use Rattle.dp_responder.specs.Memory.{Remembered, is_repeat as is_repeated, remembered_of};
ghost use Rattle.dp_responder.specs.Judgement.{admits as is_admitted, judged_by, judged_in_silence, judged_lent, judgement, refusal_function as function_by, refusal_rows, takes_length as is_taken, uses as is_used};

use crate::memory::{FrameMemory, Last};
use crate::rule::Rule;
use arrayvec::ArrayVec;
use dp_sap::{Access, Point, Points, Service};
use dp_telegram::function_code::{self, Function, RR, RS, UE};
use dp_telegram::{Octets, Parts, PartsLent};

/// The result for a request, before it is served.
#[derive(Clone, Debug, Drop, PartialEq, Eq)]
pub enum Judged {
    /// No row refuses it: the service of its point is to be executed.
    Pass,
    /// It is a repeat: it gets these octets again, 0 to 255 of them, and is not executed.
    Repeat(Octets),
    /// It is refused with a reply without data, which has this function: RS, RR or UE.
    Refuse(u8, Rule),
    /// It is an SDN and is refused, so it gets no reply.
    Silent(Rule),
}

/// The result for a request, with the octets of a repeat lent. See [`Judged`].
#[derive(Clone, Copy, Debug, PartialEq, Eq)]
pub enum JudgedLent<'a> {
    /// See [`Judged::Pass`].
    Pass,
    /// The octets are those that the slave remembers. See [`Judged::Repeat`].
    Repeat(&'a Octets),
    /// See [`Judged::Refuse`].
    Refuse(u8, Rule),
    /// See [`Judged::Silent`].
    Silent(Rule),
}

/// Judges a request by the rows of the verdict from the repeat to the length (own order): repeat,
/// point off, sender not admitted, sender not listed, another service, point busy, length.
///
/// `sender` is a master of the line, `fc` the function code of an SRD or an SDN, 0 to 255, and
/// `parts` the access points and the payload of the request. The first row that applies decides.
///
/// It has no precondition: its result for a function that is neither SRD nor SDN, or for a sender
/// that is no master, is defined, but never used.
pub fn judge(points: &Points, memory: &FrameMemory, sender: u8, fc: u8, parts: &Parts) -> Judged
    ensures { result ≡ judgement points.now (remembered_of memory.now sender) sender fc parts.now }
{
    match judge_lent(points, memory, sender, fc, &parts.lent()) {
        JudgedLent::Pass => Judged::Pass,
        JudgedLent::Repeat(reply) => repeated(reply),
        JudgedLent::Refuse(function, rule) => Judged::Refuse(function, rule),
        JudgedLent::Silent(rule) => Judged::Silent(rule),
    }
}

/// Judges a request as [`judge`] does, but lends the octets of a repeat. The result needs no room
/// for them.
pub fn judge_lent<'a>(
    points: &Points,
    memory: &'a FrameMemory,
    sender: u8,
    fc: u8,
    parts: &PartsLent<'_>,
) -> JudgedLent<'a>
    ensures { judged_lent result ≡ judgement points.now (remembered_of memory.now sender) sender fc parts.now }
{
    match memory.last_of(sender) {
        Some(last) if is_repeat(last, fc) => JudgedLent::Repeat(&last.reply),
        _ => judge_anew(points, sender, fc, parts),
    }
}

/// Judges a request that is no repeat.
fn judge_anew<'a>(points: &Points, sender: u8, fc: u8, parts: &PartsLent<'_>) -> JudgedLent<'a>
    ensures { (last : Option Remembered) → judged_lent result ≡ judged_by last fc (first_row (refusal_rows (access_row points.now parts.now.dsap) (is_listed points.now parts.now.dsap sender) sender fc parts.now.payload.items)) }
{
    by_rule(refusal(points, sender, fc, parts), fc)
}

/// Judges an SDN, which is no repeat and gets no reply, by the same rows. Returns the rule that
/// refuses it; [`Rule::Done`] if it passes.
pub fn judge_sdn(points: &Points, sender: u8, fc: u8, parts: &PartsLent<'_>) -> Rule
    requires { asks_sdn (function_of fc) ≡ true }
    ensures { (last : Option Remembered) → judgement points.now last sender fc parts.now ≡ judged_in_silence result }
{
    refusal(points, sender, fc, parts)
}

/// Returns whether the request is an SRD with FCV 1 whose FCB is the remembered one.
fn is_repeat(last: &Last, fc: u8) -> bool
    ensures { result ≡ is_repeated (Some last.now) fc }
{
    Function::from_fc(fc).is_srd() && function_code::fcv(fc) && last.fcb == function_code::fcb(fc)
}

/// Returns the remembered reply again.
fn repeated(reply: &Octets) -> Judged
    ensures { result ≡ verdicts.Repeat reply.now }
{
    let mut octets = ArrayVec::new();
    octets.try_extend_from_slice(reply).unwrap();
    Judged::Repeat(octets)
}

/// Returns the rule that refuses a request which is no repeat; [`Rule::Done`] if none does.
fn refusal(points: &Points, sender: u8, fc: u8, parts: &PartsLent<'_>) -> Rule
    ensures rule { result ≡ first_row (refusal_rows (access_row points.now parts.now.dsap) (is_listed points.now parts.now.dsap sender) sender fc parts.now.payload.items) }
    ensures repeat { result ≢ rules.Repeat }
{
    let point = points.find(parts.dsap());
    if !point.active {
        return Rule::NotActive;
    }
    refusal_at(points, &point, sender, fc, parts)
}

/// Returns the rule that refuses a request at this point, which is on; [`Rule::Done`] if none does.
fn refusal_at(points: &Points, point: &Point, sender: u8, fc: u8, parts: &PartsLent<'_>) -> Rule
    ensures rule { result ≡ first_row (refusal_rows (Some point.now) (is_listed points.now parts.now.dsap sender) sender fc parts.now.payload.items) }
    ensures repeat { result ≢ rules.Repeat }
{
    if !admits(point.access, sender) {
        return Rule::NotHolder;
    }
    if !points.listed(parts.dsap(), sender) {
        return Rule::NotListed;
    }
    if !uses(fc, point.service) {
        return Rule::NoService;
    }
    if point.busy {
        return Rule::Busy;
    }
    if !takes_length(point, parts.payload().len()) {
        return Rule::Length;
    }
    Rule::Done
}

/// Returns the result for a request that is no repeat, by its rule. An SDN that is refused gets no
/// reply.
fn by_rule<'a>(rule: Rule, fc: u8) -> JudgedLent<'a>
    requires { rule ≢ rules.Repeat }
    ensures { (last : Option Remembered) → judged_lent result ≡ judged_by last fc rule }
{
    match rule {
        Rule::Done => JudgedLent::Pass,
        refusal if Function::from_fc(fc).is_sdn() => JudgedLent::Silent(refusal),
        refusal => JudgedLent::Refuse(refusal_function(refusal), refusal),
    }
}

/// Returns the function of the reply without data by which a rule refuses an SRD.
fn refusal_function(rule: Rule) -> u8
    ensures { result ≡ function_by rule }
{
    match rule {
        Rule::Busy => RR,
        Rule::Length => UE,
        _ => RS,
    }
}

/// Returns whether the point takes requests of the sender.
fn admits(access: Access, sender: u8) -> bool
    ensures { result ≡ is_admitted sender access }
{
    match access {
        Access::All => true,
        Access::Only(holder) => holder == sender,
    }
}

/// Returns whether the function uses the service.
fn uses(fc: u8, service: Service) -> bool
    ensures { result ≡ is_used fc service }
{
    match service {
        Service::Srd => Function::from_fc(fc).is_srd(),
        Service::Sdn => Function::from_fc(fc).is_sdn(),
    }
}

/// Returns whether the point takes `count` octets.
fn takes_length(point: &Point, count: usize) -> bool
    ensures { result ≡ is_taken count point.now }
{
    usize::from(point.least) <= count && count <= usize::from(point.most)
        || point.empty && count == 0
}
