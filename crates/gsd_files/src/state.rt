//! What one more line of a GSD file gives.

ghost use Rattle.std.specs.Prelude.{◌≡◌, ◌≤◌, length};
ghost use Rattle.std.specs.Option.{option_map};
ghost use Rattle.gsd_files.specs.Steps.{seen};
ghost use Rattle.gsd_files.specs.Reading.{with_number, with_left, next_of, left_next_of, octets_next_of, user_next_of, step_to, begin_module, end_module, preset_module, refer_module, user_of, with_user, user_octets, user_octets_in, user_default, after_kind, after_text, awaits_value, after_key, after_body, after_heading, after_row, after_octets, after_code, is_quoted, end_of, after_line};

use crate::cause::Cause;
use crate::facts::{End, Ended, Facts, LeftOut, Module, Next, State, Step};
use crate::keys::{Group, Kind, Setting, is_left, kind_of, most_of, same_key};
use crate::rows::{argument_of, body_of, code_of, ends_quoted, goes_on, key_of, value_of};
use crate::slots::{after_references, begin_slot};
use crate::user::{UserDefault, UserParameters, defaulted, overlaid, padded};
use crate::values::{name_in, number_to, with_octets};
use arrayvec::ArrayVec;

/// Returns the facts with one more number.
fn with_number(facts: Facts, setting: Setting, number: u32) -> Facts
    ensures { result ≡ with_number facts setting number }
{
    let mut more = facts;
    match setting {
        Setting::Ident => more.ident = Some(number),
        Setting::Sync => more.sync = number == 1,
        Setting::Freeze => more.freeze = number == 1,
        Setting::FailSafe => more.failsafe = number == 1,
        Setting::MostParameters => more.most_parameters = Some(number),
        Setting::Modular => more.modular = number == 1,
        Setting::Fixed => more.fixed = number == 1,
        Setting::MostModules => more.most_modules = Some(number),
        Setting::MostInputs => more.most_inputs = Some(number),
        Setting::MostOutputs => more.most_outputs = Some(number),
        Setting::MostData => more.most_data = Some(number),
    }
    more
}

/// Returns the kinds of rows that were read over, and one more.
fn with_left(left: LeftOut, group: Group) -> LeftOut
    ensures { result ≡ with_left left group }
{
    match group {
        Group::Parameters => LeftOut {
            parameters: true,
            ..left
        },
        Group::Diagnosis => LeftOut {
            diagnosis: true,
            ..left
        },
        Group::Others => LeftOut {
            others: true,
            ..left
        },
    }
}

/// Returns how the line behind a row is read that needs no more lines.
pub(crate) fn next_of(more: bool) -> Next
    ensures { result ≡ next_of more }
{
    if more {
        Next::Nothing(false)
    } else {
        Next::Row
    }
}

/// Returns how the line behind a row is read that is read over.
fn left_next_of(end: End) -> Next
    ensures { result ≡ left_next_of end }
{
    if end.more {
        Next::Nothing(end.quoted)
    } else {
        Next::Row
    }
}

/// Returns how the line behind octets of a module is read.
fn octets_next_of(more: bool) -> Next
    ensures { result ≡ octets_next_of more }
{
    if more { Next::Octets } else { Next::Row }
}

/// Returns how the line behind octets of user parameters is read, before this place.
fn user_next_of(more: bool, place: u32) -> Next
    ensures { result ≡ user_next_of more place }
{
    if more {
        Next::UserOctets(place)
    } else {
        Next::Row
    }
}

/// Returns what a line gives that ends neither a module nor a slot.
fn step_to(facts: Facts, current: Option<Module>, next: Next) -> Step
    ensures { result ≡ step_to facts current next }
{
    Step {
        state: State {
            facts,
            current,
            slot: None,
            next,
        },
        ended: Ended::Nothing,
    }
}

/// Reads `Module = "NAME" OCTETS`.
fn begin_module(
    facts: Facts,
    current: Option<Module>,
    more: bool,
    value: Option<&[u8]>,
) -> Result<Step, Cause>
    ensures { result ≡ begin_module facts current more (option_map (λ v. v.now) value.entry) }
{
    match current {
        Some(_open) => Err(Cause::OpenModule),
        None => match value {
            None => Err(Cause::NoValue),
            Some(value) => {
                let (name, rest) = name_in(value)?;
                let octets = with_octets(ArrayVec::new(), rest)?;
                let module = Module {
                    name,
                    octets,
                    preset: false,
                    reference: None,
                    user: ArrayVec::new(),
                };
                Ok(step_to(facts, Some(module), octets_next_of(more)))
            }
        },
    }
}

/// Reads `EndModule`.
fn end_module(facts: Facts, current: Option<Module>, more: bool) -> Result<Step, Cause>
    ensures { result ≡ end_module facts current more }
{
    match current {
        None => Err(Cause::NoModule),
        Some(module) => Ok(Step {
            state: State {
                facts,
                current: None,
                slot: None,
                next: next_of(more),
            },
            ended: Ended::Module(module),
        }),
    }
}

/// Reads `Preset` with this number.
fn preset_module(
    facts: Facts,
    current: Option<Module>,
    more: bool,
    number: u32,
) -> Result<Step, Cause>
    ensures { result ≡ preset_module facts current more number }
{
    match current {
        None => Err(Cause::NoModule),
        Some(module) => {
            let module = Module {
                preset: number == 1,
                ..module
            };
            Ok(step_to(facts, Some(module), next_of(more)))
        }
    }
}

/// Reads a row that is nothing but this number: the reference of the module, if one is open.
fn refer_module(facts: Facts, current: Option<Module>, more: bool, number: u32) -> Step
    ensures { result ≡ refer_module facts current more number }
{
    match current {
        None => {
            let left = with_left(facts.left, Group::Others);
            step_to(Facts { left, ..facts }, None, next_of(more))
        }
        Some(module) => {
            let module = Module {
                reference: Some(number),
                ..module
            };
            step_to(facts, Some(module), next_of(more))
        }
    }
}

/// Returns the user parameters of the module that is open, or else those of the station.
fn user_of<'a>(facts: &'a Facts, current: &'a Option<Module>) -> &'a [u8]
    ensures user { result.now ≡ user_of facts.now current.now }
    ensures most { length result.now ≤ 237 }
{
    match current {
        None => facts.user.as_slice(),
        Some(module) => module.user.as_slice(),
    }
}

/// Returns what a row gives behind which the module that is open, or else the station, has these user parameters.
fn with_user(facts: Facts, current: Option<Module>, next: Next, user: UserParameters) -> Step
    ensures { result ≡ with_user facts current next user.items }
{
    match current {
        None => step_to(Facts { user, ..facts }, None, next),
        Some(module) => step_to(facts, Some(Module { user, ..module }), next),
    }
}

/// Reads octets of user parameters from this place.
fn user_octets(
    facts: Facts,
    current: Option<Module>,
    more: bool,
    place: u32,
    text: &[u8],
) -> Result<Step, Cause>
    ensures { result ≡ user_octets facts current more place text.now }
{
    let octets = with_octets(ArrayVec::new(), text)?;
    let user = overlaid(user_of(&facts, &current), place as usize, octets.as_slice())?;
    let next = user_next_of(more, place + octets.len() as u32);
    Ok(with_user(facts, current, next, user))
}

/// Reads a row with octets of user parameters from this place.
fn user_octets_in(
    facts: Facts,
    current: Option<Module>,
    more: bool,
    place: u32,
    value: Option<&[u8]>,
) -> Result<Step, Cause>
    ensures { result ≡ user_octets_in facts current more place (option_map (λ v. v.now) value.entry) }
{
    match value {
        None => Err(Cause::NoValue),
        Some(text) => user_octets(facts, current, more, place, text),
    }
}

/// Reads a row with the reference of a default at this place.
fn user_default(
    defaults: &[UserDefault],
    facts: Facts,
    current: Option<Module>,
    more: bool,
    place: u32,
    reference: u32,
) -> Result<Step, Cause>
    ensures { result ≡ user_default defaults.now facts current more place reference }
{
    let user = defaulted(
        defaults,
        reference,
        place as usize,
        user_of(&facts, &current),
    )?;
    Ok(with_user(facts, current, next_of(more), user))
}

/// Reads a row of this kind with this value, in which no text is open unless it is read over.
fn after_kind(
    defaults: &[UserDefault],
    facts: Facts,
    current: Option<Module>,
    end: End,
    value: Option<&[u8]>,
    kind: Kind,
) -> Result<Step, Cause>
    ensures { result ≡ after_kind defaults.now facts current end (option_map (λ v. v.now) value.entry) kind }
{
    match kind {
        Kind::Module => begin_module(facts, current, end.more, value),
        Kind::EndModule => end_module(facts, current, end.more),
        Kind::Preset => preset_module(facts, current, end.more, number_to(1, value)?),
        Kind::Setting(setting) => {
            let number = number_to(most_of(setting), value)?;
            Ok(step_to(
                with_number(facts, setting, number),
                current,
                next_of(end.more),
            ))
        }
        Kind::UserLength => {
            let count = number_to(237, value)?;
            let user = padded(user_of(&facts, &current), count as usize);
            Ok(with_user(facts, current, next_of(end.more), user))
        }
        Kind::UserOctets(place) => user_octets_in(facts, current, end.more, place, value),
        Kind::UserDefault(place) => {
            let reference = number_to(65_535, value)?;
            user_default(defaults, facts, current, end.more, place, reference)
        }
        Kind::Slot(number) => begin_slot(facts, current, end.more, number, value),
        Kind::Reference(number) => Ok(refer_module(facts, current, end.more, number)),
        Kind::Left(group) => {
            let left = with_left(facts.left, group);
            Ok(step_to(Facts { left, ..facts }, current, left_next_of(end)))
        }
    }
}

/// Reads a row of this kind with this value, at whose end no text may be open unless it is read over.
fn after_text(
    defaults: &[UserDefault],
    facts: Facts,
    current: Option<Module>,
    end: End,
    value: Option<&[u8]>,
    kind: Kind,
) -> Result<Step, Cause>
    ensures { result ≡ after_text defaults.now facts current end (option_map (λ v. v.now) value.entry) kind }
{
    if end.quoted && !is_left(kind) {
        return Err(Cause::OpenText);
    }
    after_kind(defaults, facts, current, end, value, kind)
}

/// Returns whether a row ends behind its `=`, and goes on in the next line.
fn awaits_value(more: bool, value: Option<&[u8]>) -> bool
    ensures { result ≡ awaits_value more (option_map (λ v. v.now) value.entry) }
{
    match value {
        None => false,
        Some(value) => more && value.is_empty(),
    }
}

/// Reads a row of this kind, whose value may be in the next line.
fn after_key(
    defaults: &[UserDefault],
    facts: Facts,
    current: Option<Module>,
    end: End,
    value: Option<&[u8]>,
    kind: Kind,
) -> Result<Step, Cause>
    ensures { result ≡ after_key defaults.now facts current end (option_map (λ v. v.now) value.entry) kind }
{
    if awaits_value(end.more, value) {
        return Ok(step_to(facts, current, Next::Value(kind)));
    }
    after_text(defaults, facts, current, end, value, kind)
}

/// Reads a row behind the heading.
fn after_body(
    defaults: &[UserDefault],
    facts: Facts,
    current: Option<Module>,
    end: End,
    body: &[u8],
) -> Result<Step, Cause>
    ensures { result ≡ after_body defaults.now facts current end body.now }
{
    let key = key_of(body);
    if key.is_empty() {
        return Err(Cause::NoKey);
    }
    let kind = kind_of(key, argument_of(body));
    after_key(defaults, facts, current, end, value_of(body), kind)
}

/// Reads the heading.
fn after_heading(
    facts: Facts,
    current: Option<Module>,
    more: bool,
    body: &[u8],
) -> Result<Step, Cause>
    ensures { result ≡ after_heading facts current more body.now }
{
    if same_key(body, b"#profibus_dp") {
        let facts = Facts {
            headed: true,
            ..facts
        };
        Ok(step_to(facts, current, next_of(more)))
    } else {
        Err(Cause::NoHeading)
    }
}

/// Reads a row.
fn after_row(
    defaults: &[UserDefault],
    facts: Facts,
    current: Option<Module>,
    end: End,
    body: &[u8],
) -> Result<Step, Cause>
    ensures { result ≡ after_row defaults.now facts current end body.now }
{
    if body.is_empty() {
        return Ok(step_to(facts, current, next_of(end.more)));
    }
    if facts.headed {
        after_body(defaults, facts, current, end, body)
    } else {
        after_heading(facts, current, end.more, body)
    }
}

/// Reads more octets of the module that is open.
fn after_octets(
    facts: Facts,
    current: Option<Module>,
    more: bool,
    body: &[u8],
) -> Result<Step, Cause>
    ensures { result ≡ after_octets facts current more body.now }
{
    match current {
        None => Err(Cause::NoModule),
        Some(module) => {
            let Module {
                name,
                octets,
                preset,
                reference,
                user,
            } = module;
            let module = Module {
                name,
                octets: with_octets(octets, body)?,
                preset,
                reference,
                user,
            };
            Ok(step_to(facts, Some(module), octets_next_of(more)))
        }
    }
}

/// Reads the code of a line without its `\`, by how it is read.
fn after_code(defaults: &[UserDefault], state: State, end: End, body: &[u8]) -> Result<Step, Cause>
    ensures { result ≡ after_code defaults.now state end body.now state.next }
{
    let State {
        facts,
        current,
        slot,
        next,
    } = state;
    match next {
        Next::Row => after_row(defaults, facts, current, end, body),
        Next::Octets => after_octets(facts, current, end.more, body),
        Next::UserOctets(place) => user_octets(facts, current, end.more, place, body),
        Next::References => after_references(facts, current, end.more, body, slot),
        Next::Value(kind) => after_key(defaults, facts, current, end, Some(body), kind),
        Next::Nothing(_) => Ok(step_to(facts, current, left_next_of(end))),
    }
}

/// Returns whether a text of the row is open before its next line.
fn is_quoted(next: Next) -> bool
    ensures { result ≡ is_quoted next }
{
    match next {
        Next::Row => false,
        Next::Octets => false,
        Next::UserOctets(_) => false,
        Next::References => false,
        Next::Value(_) => false,
        Next::Nothing(quoted) => quoted,
    }
}

/// Returns what one more line gives, without its LF.
pub(crate) fn after_line(defaults: &[UserDefault], state: State, line: &[u8]) -> Result<Step, Cause>
    ensures { result ≡ after_line defaults.now state line.now }
{
    let quoted = is_quoted(state.next);
    let code = code_of(quoted, line)?;
    let end = End {
        more: goes_on(code),
        quoted: ends_quoted(quoted, code),
    };
    after_code(defaults, state, end, body_of(code))
}
