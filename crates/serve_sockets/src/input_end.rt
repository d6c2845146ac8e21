//! The end of an input, with which serving stops.
//!
//! A thread of its own reads the input, because a read can't be ended: the program ends while that thread waits.

ghost use Rattle.std.specs.Prelude.{IfSome};

use crate::serve_phase::ServePhase;
use crossbeam_channel::{Receiver, Sender, bounded};
use std::alloc::Global;
use std::io::{self, Read};
use std::net::{Net, TcpListener, TcpStream};
use std::sync::Wait;
use std::thread;
use std::thread::Threads;

/// What ends the wait for the end of an input.
#[derive(Clone, Copy, PartialEq, Eq)]
enum Ending {
    /// The input has ended.
    Input,
    /// Serving has ended.
    Serving,
}

/// The most messages: one for each ending.
const MOST_ENDINGS: usize = 2;

/// An input that is read until it ends.
#[derive(Drop)]
pub struct InputEnd {
    sender: Sender<Ending>,
    receiver: Receiver<Ending>,
}

impl InputEnd {
    /// Starts a thread that reads the input, and ignores what it reads. An input that cannot be read has ended.
    ///
    /// Returns None if memory or the thread is refused.
    pub fn watch<H: Threads + Wait + Copy + Send + 'static, R: Read + Send + Drop + 'static>(
        rt: &H,
        alloc: Global,
        input: R,
    ) -> Option<InputEnd> {
        let (sender, receiver) = bounded(alloc, MOST_ENDINGS).ok()?;
        let ended = sender.clone().ok()?;
        let host = *rt;
        let reading = move || read_to_end(host, input, ended);
        match thread::spawn(rt, reading) {
            Ok(_) => Some(InputEnd { sender, receiver }),
            Err(_) => None,
        }
    }

    /// Waits for the end of the input or of serving, and in the first case stops serving.
    fn wait_and_stop<H: Net + Wait>(&self, rt: &H, serve_phase: &ServePhase) {
        if self.receiver.recv(rt) == Ok(Ending::Input) {
            serve_phase.stop(rt, rt);
        }
    }
}

/// Reads an input to its end, and reports the end.
fn read_to_end<H: Wait + Drop, R: Read + Drop>(rt: H, mut input: R, ended: Sender<Ending>) {
    let _ = io::copy(&mut input, &mut io::sink());
    let _ = ended.send(&rt, Ending::Input);
}

/// Runs `serve` while a thread of its own stops serving if the input ends.
///
/// Returns what `serve` returned, or None if the thread is refused; `serve` is not run then.
pub fn stop_with_input<
    H: Net<Listener = TcpListener, Stream = TcpStream> + Threads + Wait + Sync,
    T,
    S: FnOnce() -> T,
>(rt: &H, serve_phase: &ServePhase, input: &InputEnd, serve: S) -> Option<T>
    requires { S.pre serve }
    ensures { IfSome result (λ served. S.post serve served) }
{
    thread::scope(
        thread::scope_env(),
        rt,
        |scope| -> Option<T>
            requires { S.pre serve }
            ensures { IfSome result (λ served. S.post serve served) }
        {
            let waiting = move || input.wait_and_stop(rt, serve_phase);
            if scope.spawn(waiting).is_err() {
                return None;
            }
            let served = serve();
            let _ = input.sender.send(rt, Ending::Serving);
            Some(served)
        },
    )
}
