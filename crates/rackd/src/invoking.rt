//! Carries out what the words of the command line name.

use crate::watching::watch_folder;
use client_host::{operate_line, run_cable};
use command_host::{Terminals, answer_words, run_command, run_input};
use rackd_cli::Invocation;
use rackd_faults::ended;
use serve_options::ServeOptions;
use serve_rack::Host;
use std::io::Read;
use std::process::ExitCode;
use watch_host::WatchHost;

/// What is reported if standard input is read from a terminal.
const HINT: &str =
    "rackd reads a rack, a line %% and a script from here; 'rackd --help' has its other forms";

/// Carries out what the words of the command line name, and returns the exit status. `input` is standard input; `serve` serves
/// the rack of a file.
pub(crate) fn invoke<
    'a,
    H: WatchHost + Host + Copy + Send + Sync + 'static,
    I: Read + Send + Drop + 'static,
    S: FnOnce(&'a str, ServeOptions<'a>) -> ExitCode,
>(
    rt: H,
    words: &[String],
    invocation: Invocation<'a>,
    terminals: Terminals,
    input: I,
    serve: S,
) -> ExitCode
    requires { S.IsAlwaysCallable serve }
{
    match invocation {
        Invocation::Input => {
            hint(&rt, terminals.input);
            ended(&rt, run_input(&rt))
        }
        Invocation::Files(command) => ended(&rt, run_command(&rt, command, terminals)),
        Invocation::Watch { rack, folder, port } => {
            ended(&rt, watch_folder(&rt, rack, folder, port))
        }
        Invocation::Serve { rack, options } => serve(rack, options),
        Invocation::Operate { port } => ended(&rt, operate_line(&rt, port, input)),
        Invocation::Cable { port, cable } => run_cable(rt, port, cable, input),
        Invocation::Answer(answer) => ended(&rt, answer_words(&rt, words, answer)),
    }
}

/// Reports what is read if standard input is a terminal.
fn hint(errors: &impl Eprint, is_terminal: bool) {
    if is_terminal {
        let _ = errors.eprintln(HINT);
    }
}
