//! Clients of a line: what a program that lets a line take events, and looks at it, concludes from the contracts of
//! the line and its laws only. The prover reads these functions, and nothing runs them.

ghost use Rattle.std.specs.Prelude.{◌≡◌, ◌≢◌, ◌+◌, ℕ, List, [], ◌∷◌, length, true, false, None, Some, IfOk, MatchResult, option_map};
ghost use Rattle.std.specs.List.{AllByRecursion};
ghost use Rattle.arrayvec.specs.ArrayVec.{ArrayVec as Vectors};
ghost use Rattle.dp_telegram.specs.declared.frame.Frame.{Frame as Frames};
ghost use Rattle.dp_telegram.specs.declared.frame.Telegram.{Telegram as Telegrams};
ghost use Rattle.dp_telegram.specs.FrameText.{Spells};
ghost use Rattle.dp_telegram.specs.declared.access.Parts.{Parts};
ghost use Rattle.dp_telegram.specs.Access.{address_of, global_address, parts_of};
ghost use Rattle.dp_telegram.specs.FunctionCode.{asks_srd, frame_count_is_valid, function_of};
ghost use Rattle.dp_responder.specs.declared.rule.Rule.{Rule as Rules};
ghost use Rattle.dp_sap.specs.AccessTable.{chk_cfg, may_lock};
ghost use Rattle.dp_cfg.specs.Choosing.{chosen};
ghost use Rattle.dp_slave.specs.declared.description.SlaveSpec.{SlaveSpec as Specs};
ghost use Rattle.dp_slave.specs.SlaveRecord.{SlaveRecord, configurations, inputs_of, output_length, zeros};
ghost use Rattle.dp_slave.specs.Soundness.{IsSound};
ghost use Rattle.dp_slave.specs.Fields.{acted};
ghost use Rattle.dp_slave.specs.Services.{service_act};
ghost use Rattle.dp_slave.specs.View.{view_of};
ghost use Rattle.dp_line.specs.declared.event.Event.{Event as Events};
ghost use Rattle.dp_line.specs.declared.event.Outcome.{Outcome as Answered};
ghost use Rattle.dp_line.specs.declared.event.Op.{Op as Ops};
ghost use Rattle.dp_line.specs.World.{Description, described_at, description_of, slave_at, start_of, takes_no_more};
ghost use Rattle.dp_line.specs.Events.{is_request_of};
ghost use Rattle.dp_line.specs.Effects.{slave_after};
ghost use Rattle.dp_line.specs.Steps.{run, step};
ghost use Rattle.dp_line.specs.Refusals.{IsUndone};
ghost use Rattle.dp_line.specs.Isolation.{Agrees, MeetsNoLastPlace, only_requests_of, seen_by, watched};

use crate::typed_values::{prove_events, prove_line};
use dp_line::laws::take_each;
use dp_line::{Event, LineSpec, LineState, Op, OpenFault, RestoreFault, SlaveView, Step};
use std::alloc::Global;

/// What is shown of a slave before and after an event, and the answer to the event.
#[derive(Drop)]
pub struct Looks {
    /// What is shown before the event.
    pub before: Option<SlaveView>,
    /// The answer.
    pub answer: Step,
    /// What is shown after the event.
    pub after: Option<SlaveView>,
}

/// Looks at a slave before and after an event.
pub fn look_around(line: &mut LineState, event: &Event, address: u8) -> Looks
    ensures recorded { (place : ℕ) → result.answer.place ≡ Some place
        → result.after ≡ option_map view_of (option_map (slave_after line.old.world event.now) (slave_at line.old.world address)) }
    ensures beside { (master : ℕ) (octets : Vectors ℕ) (telegram : Telegrams)
        → event.now ≡ Events.Request master octets
        → Spells octets.items (Frames.Telegram telegram)
        → address_of telegram.da ≢ global_address
        → address ≢ address_of telegram.da
        → result.answer.halted ≡ None
        → result.after ≡ result.before }
    ensures refused { IsUndone result.answer.outcome → result.answer.halted ≡ None → result.after ≡ result.before }
    ensures done { (master : ℕ) (octets reply : Vectors ℕ) (telegram : Telegrams) (parts : Parts) (slave : SlaveRecord)
        → event.now ≡ Events.Request master octets
        → Spells octets.items (Frames.Telegram telegram)
        → parts_of telegram ≡ Some parts
        → address ≡ address_of telegram.da
        → slave_at line.old.world address ≡ Some slave
        → result.answer.outcome ≡ Answered.Reply reply Rules.Done
        → result.after ≡ Some (view_of (acted slave (service_act slave master (line.old.world.count + 1) parts.dsap parts.payload.items))) }
{
    dp_line::laws::each_slave_before_and_after();
    dp_line::laws::only_the_slave_asked_changes();
    dp_line::laws::a_refusal_changes_nothing();
    dp_line::laws::a_request_does_its_service();
    let before = line.view(address);
    let answer = line.take(event);
    Looks {
        before,
        answer,
        after: line.view(address),
    }
}

/// Opens a line, lets it take events, and sends it a request twice, with events in between.
pub fn ask_again(
    alloc: Global,
    spec: &LineSpec,
    before: &[Event],
    request: &Event,
    between: &[Event],
) -> Result<(Step, Step), OpenFault>
    ensures { IfOk result (λ answers. (master : ℕ) (octets reply : Vectors ℕ) (rule : Rules) (telegram : Telegrams)
        → request.now ≡ Events.Request master octets
        → Spells octets.items (Frames.Telegram telegram)
        → asks_srd (function_of telegram.fc) ≡ true
        → frame_count_is_valid telegram.fc ≡ true
        → answers.0.outcome ≡ Answered.Reply reply rule
        → AllByRecursion (λ event. is_request_of master event ≡ false) between.now
        → takes_no_more (run (step (run (start_of (description_of spec.now)) before.now).world request.now).world between.now).world ≡ false
        → answers.1.outcome ≡ Answered.Reply reply Rules.Repeat) }
{
    dp_line::laws::a_repeat_gets_the_same_octets();
    let mut line = LineState::open(alloc, spec)?;
    take_each(&mut line, before);
    let first = line.take(request);
    take_each(&mut line, between);
    Ok((first, line.take(request)))
}

/// Sends a request again after time has passed, in which a watchdog may have released the slave. The repeat gets the
/// same octets.
pub fn ask_again_after_time(
    alloc: Global,
    spec: &LineSpec,
    before: &[Event],
    request: &Event,
    time: u32,
) -> Result<(Step, Step), OpenFault>
    ensures { IfOk result (λ answers. (master : ℕ) (octets reply : Vectors ℕ) (rule : Rules) (telegram : Telegrams)
        → request.now ≡ Events.Request master octets
        → Spells octets.items (Frames.Telegram telegram)
        → asks_srd (function_of telegram.fc) ≡ true
        → frame_count_is_valid telegram.fc ≡ true
        → answers.0.outcome ≡ Answered.Reply reply rule
        → takes_no_more (run (step (run (start_of (description_of spec.now)) before.now).world request.now).world (Events.Operator (Ops.Tick time) ∷ [])).world ≡ false
        → answers.1.outcome ≡ Answered.Reply reply Rules.Repeat) }
{
    let between = [Event::Operator(Op::Tick(time))];
    let answers = ask_again(alloc, spec, before, request, &between)?;
    Ok(answers)
}

/// Opens a line and lets it take events. A master that the description does not name as a locker does not hold the
/// slave.
pub fn open_and_take(
    alloc: Global,
    spec: &LineSpec,
    events: &[Event],
) -> Result<LineState, OpenFault>
    ensures { IfOk result (λ line. (address holder : ℕ) (slave : SlaveRecord) (description : Specs)
        → slave_at line.world address ≡ Some slave
        → slave.holder ≡ Some holder
        → described_at (description_of spec.now).slaves address ≡ Some description
        → may_lock description.lists holder ≡ true) }
{
    dp_line::bus_laws::lockers_alone_hold();
    let mut line = LineState::open(alloc, spec)?;
    take_each(&mut line, events);
    Ok(line)
}

/// Opens an endless line and lets it take events. Then another line goes on from it: this is never refused, and the other
/// line is as the first one.
pub fn go_on(
    alloc: Global,
    spec: &LineSpec,
    events: &[Event],
) -> Result<(LineState, Result<LineState, RestoreFault>), OpenFault>
    ensures { IfOk result (λ lines. MatchResult lines.1 (λ other. other.world ≡ lines.0.world) (λ fault. fault ≡ RestoreFault.OutOfMemory)) }
{
    dp_line::laws::a_line_goes_on_from_each_of_its_worlds();
    dp_line::bus_laws::a_line_keeps_its_description();
    prove_line(spec);
    prove_events(events);
    let mut line = LineState::open(alloc, spec)?;
    line.lift_limit();
    take_each(&mut line, events);
    let other = LineState::restore(alloc, spec, line.count(), line.is_halted(), line.slaves());
    Ok((line, other))
}

/// Opens a line, and lets it take events and then a request. If the request is a Chk_Cfg with the octets of a slave's
/// second configuration and it is done, the slave has as many inputs as that configuration.
pub fn configure(
    alloc: Global,
    spec: &LineSpec,
    before: &[Event],
    request: &Event,
) -> Result<(LineState, Step), OpenFault>
    ensures { IfOk result (λ configured. (master : ℕ) (octets reply : Vectors ℕ) (telegram : Telegrams) (parts : Parts) (slave after : SlaveRecord)
        → request.now ≡ Events.Request master octets
        → Spells octets.items (Frames.Telegram telegram)
        → parts_of telegram ≡ Some parts
        → parts.dsap ≡ chk_cfg
        → slave_at (run (start_of (description_of spec.now)) before.now).world (address_of telegram.da) ≡ Some slave
        → chosen (configurations slave.description) parts.payload.items ≡ Some 1
        → configured.1.outcome ≡ Answered.Reply reply Rules.Done
        → slave_at configured.0.world (address_of telegram.da) ≡ Some after
        → length after.inputs ≡ inputs_of after.description 1) }
{
    dp_line::bus_laws::a_good_chk_cfg_puts_its_shape_in_force();
    let mut line = LineState::open(alloc, spec)?;
    take_each(&mut line, before);
    let answer = line.take(request);
    Ok((line, answer))
}

/// States that the slave of an address is sound, whatever events came to its line in two lists since the opening. Does
/// nothing at run time.
pub fn a_slave_is_sound_after_further_events()
    ensures { (line : Description) (events further : List Events) (address : ℕ) (slave : SlaveRecord)
        → slave_at (run (run (start_of line) events).world further).world address ≡ Some slave
        → IsSound slave }
{
    dp_line::bus_laws::each_slave_stays_sound();
}

/// Opens a line and takes events. After them, and after any further events, the outputs of a cleared slave are zero,
/// as many as its shape has. They stay zero until the slave is no longer cleared.
pub fn outputs_while_cleared(
    alloc: Global,
    spec: &LineSpec,
    events: &[Event],
) -> Result<LineState, OpenFault>
    ensures { IfOk result (λ line. (further : List Events) (address : ℕ) (slave : SlaveRecord)
        → slave_at (run line.world further).world address ≡ Some slave
        → slave.cleared ≡ true
        → slave.outputs ≡ zeros (output_length slave)) }
{
    a_slave_is_sound_after_further_events();
    let mut line = LineState::open(alloc, spec)?;
    take_each(&mut line, events);
    Ok(line)
}

/// Opens two lines, and lets each take events of its own.
pub fn open_both(
    alloc: Global,
    spec: &LineSpec,
    other: &LineSpec,
    before: &[Event],
    before_there: &[Event],
) -> Result<(LineState, LineState), OpenFault>
    ensures { IfOk result (λ lines. (master address : ℕ) (events : List Events)
        → Agrees master address lines.0.world lines.1.world
        → MeetsNoLastPlace lines.0.world events
        → MeetsNoLastPlace lines.1.world (only_requests_of master events)
        → watched master address lines.0.world events ≡ watched master address lines.1.world (only_requests_of master events)) }
{
    dp_line::laws::isolation_since_the_opening();
    let mut line = LineState::open(alloc, spec)?;
    let mut another = LineState::open(alloc, other)?;
    take_each(&mut line, before);
    take_each(&mut another, before_there);
    Ok((line, another))
}

/// States that a line that is not halted agrees with itself on each slave that a master holds, and on this
/// master. Does nothing at run time.
pub fn agrees_with_itself(line: &LineState)
    ensures { (master address : ℕ) (slave : SlaveRecord)
        → slave_at line.now.world address ≡ Some slave
        → slave.holder ≡ Some master
        → line.now.world.halted ≡ false
        → Agrees master address line.now.world line.now.world }
{
    dp_line::laws::facts_name_masters();
    line.holders_are_masters();
}

/// A line, and its answer to the last request.
#[derive(Drop)]
pub struct LineAndAnswer {
    /// The line after the request.
    pub line: LineState,
    /// The answer.
    pub answer: Step,
}

/// Opens two lines of one description. Both take a first request, after which its master holds a slave. Only the first
/// line then takes a request of another master. Finally both take the same request of the holder.
///
/// The other master's request makes no difference to the holder: what it sees of the slave by the last request
/// (`seen_by`) is equal on both lines, if the lines are not halted and do not meet their last places.
pub fn ask_beside_another(
    alloc: Global,
    spec: &LineSpec,
    first: &Event,
    other: &Event,
    last: &Event,
) -> Result<(LineAndAnswer, LineAndAnswer), OpenFault>
    ensures { IfOk result (λ both. (master stranger address : ℕ) (sent asked : Vectors ℕ) (slave : SlaveRecord)
        → let held = (step (start_of (description_of spec.now)) first.now).world in
        slave_at held address ≡ Some slave
        → slave.holder ≡ Some master
        → held.halted ≡ false
        → other.now ≡ Events.Request stranger sent
        → stranger ≢ master
        → last.now ≡ Events.Request master asked
        → MeetsNoLastPlace held (other.now ∷ last.now ∷ [])
        → MeetsNoLastPlace held (last.now ∷ [])
        → seen_by address last.now both.0.line.world both.0.answer ≡ seen_by address last.now both.1.line.world both.1.answer) }
{
    dp_line::laws::isolation_since_the_opening();
    let mut line = LineState::open(alloc, spec)?;
    let mut another = LineState::open(alloc, spec)?;
    line.take(first);
    another.take(first);
    agrees_with_itself(&line);
    line.take(other);
    let answer = line.take(last);
    let alone = another.take(last);
    Ok((
        LineAndAnswer { line, answer },
        LineAndAnswer {
            line: another,
            answer: alone,
        },
    ))
}

/// Gets the list of an address that is no master's, which is empty.
pub fn list_of_a_stranger(line: &LineState, address: u8) -> bool
    ensures { result ≡ true }
{
    dp_line::laws::who_is_no_master_owns_nothing();
    line.holders_are_masters();
    line.is_master(address) || line.owned_by(address).is_empty()
}
