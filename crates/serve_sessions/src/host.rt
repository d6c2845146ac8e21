//! What a rack server requires of its host.

use audit_files::FileHost;
use std::net::{Net, TcpListener, TcpStream};
use std::thread::Threads;

/// Sockets, files, threads, locks, a clock, and a log on standard error: all bounds on the host as one trait.
///
/// A function that shares the host with threads also requires `Sync`.
pub trait Host: Net<Listener = TcpListener, Stream = TcpStream> + FileHost + Threads {}

impl<H: Net<Listener = TcpListener, Stream = TcpStream> + FileHost + Threads> Host for H {}
