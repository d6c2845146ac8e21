//! The program `rackd`: it opens the files, carries out the command that its arguments name, and ends with a status; it
//! decides nothing of the policy, which the crates below do.
//!
//! Without arguments it reads a rack text, a row `%%` and a script from standard input, and writes the answers of the
//! script. `run` reads the rack and the script from two files. `check` reads a rack and an audit text, and checks the
//! text. `explain` reads a rack and an audit text, and explains the text. `judge` judges the masters of an audit text,
//! and `capture` writes its telegrams for Wireshark. `gsd` and `slave` write and read GSD files. `serve` reads a rack,
//! and serves its lines at sockets. `watch` shows a rack in a browser. `operate` is a client of the operator port of a
//! line that is served. `cable` serves a cable with faults between masters and a line. `--help` and `--version` are
//! answered on standard output.
#![tactic(auto)]

mod invoking;
mod serving;
mod watching;

use command_host::Terminals;
use invoking::invoke;
use log::{Level, Log, Logged, info};
use rackd_cli::{read_words, words_of};
use rackd_faults::{Fault, report};
use serve_options::ServeOptions;
use serve_rack::Served;
use serving::{Prepared, prepare, serve_rack};
use std::fs::File;
use std::io::IsTerminal;
use std::net::{TcpListener, TcpStream};
use std::process::ExitCode;
use std::thread;
use watch_host::ServedPage;

fn main(rt: HostRuntime) -> ExitCode {
    // The checker requires that this function names the types that `Host` fixes.
    let _named: (Option<TcpListener>, Option<TcpStream>, Option<File>) = (None, None, None);
    let words = match words_of(&rt) {
        Ok(words) => words,
        Err(fault) => return report(&rt, Fault::from(fault)),
    };
    let terminals = Terminals {
        input: rt.stdin().is_terminal(),
        output: rt.stdout().is_terminal(),
        errors: rt.stderr().is_terminal(),
    };
    // Both start threads: the checker proves that these may share the host only if its type is fixed.
    let start_page = move |page: ServedPage| -> bool {
        let showing = move || {
            let _named: (Option<TcpListener>, Option<TcpStream>, Option<File>) = (None, None, None);
            page.show(&rt)
        };
        thread::spawn(&rt, showing).is_ok()
    };
    let serve = move |path: &str, options: ServeOptions<'_>| -> ExitCode {
        let _named: (Option<TcpListener>, Option<TcpStream>, Option<File>) = (None, None, None);
        let Prepared {
            rack,
            page,
            input,
            queue,
            written,
        } = match prepare(rt, path, options, rt.stdin(), start_page) {
            Ok(prepared) => prepared,
            Err(fault) => return report(&rt, fault),
        };
        let host = Logged::new(rt, Level::Info, queue);
        let code = serve_rack(
            &host,
            host.sink(),
            rt.alloc(),
            path,
            rack.as_str(),
            options,
            input,
            page,
        );
        let (_, queue) = host.into_parts();
        queue.end(written);
        code
    };
    match read_words(rt.alloc(), words.as_slice()) {
        Ok(invocation) => invoke(
            rt,
            words.as_slice(),
            invocation,
            terminals,
            rt.stdin(),
            serve,
        ),
        Err(fault) => report(&rt, Fault::from(fault)),
    }
}

/// Logs the number of sessions served. It stands here, because a row of the log names the module that it comes from, which is
/// `rackd` for every row of the program.
pub(crate) fn note_served(rt: &impl Log, served: Served) -> ExitCode {
    let Served { masters, operators } = served;
    info!(rt; "served {masters} sessions of masters and {operators} of operators");
    ExitCode::SUCCESS
}
