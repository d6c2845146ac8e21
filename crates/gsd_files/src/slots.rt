//! The slots of a GSD file, and the references of the modules that they take.

ghost use Rattle.std.specs.Prelude.{◌≡◌};
ghost use Rattle.std.specs.Option.{option_map};
ghost use Rattle.gsd_files.specs.Steps.{seen};
ghost use Rattle.gsd_files.specs.Reading.{with_span, with_reference, with_references, slot_step, begin_slot, after_references};

use crate::cause::Cause;
use crate::facts::{Ended, Facts, Module, Next, Slot, State, Step};
use crate::values::{Span, first_word, name_in, span_of};
use arrayvec::ArrayVec;

/// Returns a slot with one more reference, or several. The first number is the default.
fn with_span(slot: Slot, span: Span) -> Result<Slot, Cause>
    ensures { result ≡ with_span slot span }
{
    match slot.default {
        None => Ok(Slot {
            default: Some(span.first),
            ..slot
        }),
        Some(_default) => {
            let mut more = slot;
            if more.allowed.is_full() {
                return Err(Cause::ManyReferences);
            }
            more.allowed.push(span);
            Ok(more)
        }
    }
}

/// Returns a slot with the references of a word.
fn with_reference(slot: Slot, word: &[u8]) -> Result<Slot, Cause>
    ensures { result ≡ with_reference slot word.now }
{
    if word.is_empty() {
        return Ok(slot);
    }
    match span_of(word) {
        None => Err(Cause::NoReference),
        Some(span) => with_span(slot, span),
    }
}

/// Returns a slot with the references of a text. `NoReference` if a word isn't a number or two with `-` between them,
/// `ManyReferences` for more than 256 behind the default.
fn with_references(slot: Slot, text: &[u8]) -> Result<Slot, Cause>
    ensures { result ≡ with_references slot text.now }
{
    let (word, rest) = first_word(text);
    let more = with_reference(slot, word)?;
    match rest {
        None => Ok(more),
        Some(rest) => with_references(more, rest),
    }
}

/// Returns what a line gives whose slot goes on or ends.
fn slot_step(facts: Facts, current: Option<Module>, more: bool, slot: Slot) -> Step
    ensures { result ≡ slot_step facts current more slot }
{
    if more {
        Step {
            state: State {
                facts,
                current,
                slot: Some(slot),
                next: Next::References,
            },
            ended: Ended::Nothing,
        }
    } else {
        Step {
            state: State {
                facts,
                current,
                slot: None,
                next: Next::Row,
            },
            ended: Ended::Slot(slot),
        }
    }
}

/// Reads `Slot(1) = "NAME" DEFAULT REFERENCES`.
pub(crate) fn begin_slot(
    facts: Facts,
    current: Option<Module>,
    more: bool,
    number: u32,
    value: Option<&[u8]>,
) -> Result<Step, Cause>
    ensures { result ≡ begin_slot facts current more number (option_map (λ v. v.now) value.entry) }
{
    match value {
        None => Err(Cause::NoValue),
        Some(value) => {
            let (name, rest) = name_in(value)?;
            let slot = Slot {
                number,
                name,
                default: None,
                allowed: ArrayVec::new(),
            };
            let slot = with_references(slot, rest)?;
            Ok(slot_step(facts, current, more, slot))
        }
    }
}

/// Reads more references of the slot whose row goes on.
pub(crate) fn after_references(
    facts: Facts,
    current: Option<Module>,
    more: bool,
    body: &[u8],
    slot: Option<Slot>,
) -> Result<Step, Cause>
    ensures { result ≡ after_references facts current more body.now slot }
{
    match slot {
        None => Err(Cause::NoReference),
        Some(slot) => {
            let slot = with_references(slot, body)?;
            Ok(slot_step(facts, current, more, slot))
        }
    }
}
