//! What following a rack requires of its host.

use std::fs::{File, Files};
use std::net::{Net, TcpListener, TcpStream};
use std::random::RandomSource;
use std::rt::Runtime;
use std::sync::Wait;
use std::thread::Threads;
use std::time::Clock;

/// Locks, a clock, random numbers and memory: what a thread that serves connections requires.
///
/// It has no associated type, because the check does not know that such a type may be sent to another thread.
pub trait PageHost: Wait + RandomSource + Clock + AllocGlobal {}

impl<H: Wait + RandomSource + Clock + AllocGlobal> PageHost for H {}

/// Sockets, files and threads besides: all bounds on the host as one trait.
pub trait WatchHost: PageHost
    + Runtime
    + Net<Listener = TcpListener, Stream = TcpStream>
    + Files<File = File>
    + Threads {}

impl<
    H: PageHost
        + Runtime
        + Net<Listener = TcpListener, Stream = TcpStream>
        + Files<File = File>
        + Threads,
> WatchHost for H {}
