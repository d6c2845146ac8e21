//! What the types of descriptions and of events say of their lists and octets, as laws of a line ask for it.

ghost use Rattle.std.specs.Prelude.{◌<◌, ◌≤◌, All, length, map};
ghost use Rattle.std.specs.List.{AllByRecursion};
ghost use Rattle.dp_sap.specs.AccessTable.{most_data};
ghost use Rattle.dp_line.specs.World.{description_of};
ghost use Rattle.dp_line.specs.Bus.{HasShortConfigurations, HasShortReport};
ghost use Rattle.dp_line.specs.EventOctets.{HasOctets};
ghost use Rattle.dp_line.specs.declared.event.Event.TheVariants.{Operator};

use dp_line::{Event, LineSpec, Op};
use dp_slave::{Configuration, SlaveSpec};

/// Proves that the configurations of a line's slaves are short.
pub(crate) fn prove_line(spec: &LineSpec)
    ensures { AllByRecursion HasShortConfigurations (description_of spec.now).slaves }
{
    prove_slaves(spec.slaves.as_slice());
}

/// Proves that the configurations of slaves are short.
fn prove_slaves(slaves: &[SlaveSpec])
    ensures { AllByRecursion HasShortConfigurations slaves.now }
{
    if let [slave, others @ ..] = slaves {
        prove_configurations(slave.cfgs.as_slice());
        prove_slaves(others);
    }
}

/// Proves that configurations are short.
fn prove_configurations(configurations: &[Configuration])
    ensures { AllByRecursion (λ octets. length octets ≤ most_data) (map (λ configuration. configuration.items) configurations.now) }
{
    if let [configuration, others @ ..] = configurations {
        prove_configuration(configuration);
        prove_configurations(others);
    }
}

/// Proves that a configuration is short.
fn prove_configuration(configuration: &Configuration)
    ensures { length configuration.now.items ≤ most_data }
{
    let _ = configuration.as_slice();
}

/// Proves that the reports of events are short, and that the octets of their requests are below 256.
pub(crate) fn prove_events(events: &[Event])
    ensures short { AllByRecursion HasShortReport events.now }
    ensures octets { AllByRecursion HasOctets events.now }
{
    if let [event, others @ ..] = events {
        prove_event(event);
        prove_events(others);
    }
}

/// Proves that the report of an event is short, and that the octets of its request are below 256.
fn prove_event(event: &Event)
    ensures short { HasShortReport event.now }
    ensures octets { HasOctets event.now }
{
    match event {
        Event::Request { octets, .. } => prove_octets(octets.as_slice()),
        Event::Operator(op) => prove_op(op),
    }
}

/// Proves that octets are below 256.
fn prove_octets(octets: &[u8])
    ensures { All (λ octet. octet < 256) octets.now }
{
    let _ = octets;
}

/// Proves that the report of an operator, if it is one, is short.
fn prove_op(op: &Op)
    ensures { HasShortReport (Operator op.now) }
{
    match op {
        Op::Input { .. } => {}
        Op::Diag { octets, .. } => {
            let _ = octets.as_slice();
        }
        Op::Busy { .. } => {}
        Op::Tick(_) => {}
        Op::Halt => {}
    }
}
