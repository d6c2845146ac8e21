//! The connections of a master: its own, and one to the line.

use crate::delayed::{DelayedSender, MOST_DELAYED, write_delayed};
use crate::link::{Link, Received, receive, send};
use crate::shared::Shared;
use crate::source::Source;
use crate::way::{Way, pass_all};
use cable_faults::{Direction, Pace, RandomWords};
use crossbeam_channel::bounded;
use dp_telegram::Cutter;
use std::alloc::{AllocError, Global};
use std::io::{self, ErrorKind, Read};
use std::net::{Ipv4Addr, Net, TcpListener, TcpStream};
use std::sync::atomic::AtomicU32;
use std::sync::{Arc, Wait};
use std::thread;
use std::thread::Threads;
use std::time::{Clock, Duration, Instant};

/// How long a thread sleeps after a failed accept, in milliseconds.
const RETRY_DELAY_MS: u64 = 10;

/// Accepts the connections of masters, each in a thread of its own. If a thread can't be started, the connection is
/// closed.
pub(crate) fn accept_all<
    H: Net<Listener = TcpListener, Stream = TcpStream>
        + Threads
        + Wait
        + Clock
        + Copy
        + Send
        + 'static,
>(rt: H, alloc: Global, listener: TcpListener, shared: Arc<Shared, Global>) {
    for _ in rt.forever() {
        let Ok((master, _)) = listener.accept() else {
            thread::sleep(&rt, Duration::from_millis(RETRY_DELAY_MS));
            continue;
        };
        let Ok(shared) = Arc::try_clone(&shared) else {
            continue;
        };
        let serving = move || serve_master(rt, alloc, master, shared);
        let _ = thread::spawn(&rt, serving);
    }
}

/// Serves the connection of a master until it or the line closes it.
fn serve_master<
    H: Net<Listener = TcpListener, Stream = TcpStream>
        + Threads
        + Wait
        + Clock
        + Copy
        + Send
        + 'static,
>(rt: H, alloc: Global, master: TcpStream, shared: Arc<Shared, Global>) {
    let Ok(line) = connect(&rt, shared.port) else {
        shared.report(&rt, "a master is rejected: cannot connect to the line");
        return;
    };
    if master.set_nodelay(true).is_err() || line.set_nodelay(true).is_err() {
        return;
    }
    let Ok(link) = Arc::new(alloc, Link::new(master, line)) else {
        return;
    };
    let Ok(of_source) = Arc::try_clone(&link) else {
        return;
    };
    let mut source = Source::of_requests(of_source);
    match be_accepted(&rt, &link, &mut source) {
        Passed::Octet(address) => {
            if pass_both(rt, alloc, &link, shared, address, source).is_err() {
                link.close();
            }
        }
        Passed::Nothing => {}
        Passed::WebRequest => shared.report_web_request(&rt),
    }
}

/// Connects to the port of the line. Repeats a call that a signal interrupted.
fn connect<N: Net<Stream = TcpStream> + Wait>(net: &N, port: u16) -> io::Result<TcpStream> {
    for _ in net.forever() {
        match TcpStream::connect(net, (Ipv4Addr::LOCALHOST, port)) {
            Err(error) if error.kind() == ErrorKind::Interrupted => {}
            connected => return connected,
        }
    }
    unreachable!()
}

/// What came of an octet that was to be passed on.
#[derive(Clone, Copy)]
enum Passed {
    /// This octet was.
    Octet(u8),
    /// None was, because a connection has ended.
    Nothing,
    /// None was, because a web page has made the connection.
    WebRequest,
}

/// Passes on the address of a master and the line's answer to it, which are no telegrams. Returns the address.
fn be_accepted(rt: &impl Wait, link: &Link, source: &mut Source) -> Passed {
    let address = pass_octet(rt, source, &link.line);
    match address {
        Passed::Octet(_) => {}
        Passed::Nothing => return Passed::Nothing,
        Passed::WebRequest => return Passed::WebRequest,
    }
    let mut line = &link.line;
    match pass_octet(rt, &mut line, &link.master) {
        Passed::Octet(_) => address,
        Passed::Nothing => Passed::Nothing,
        Passed::WebRequest => Passed::WebRequest,
    }
}

/// Passes on one octet, and returns it.
fn pass_octet<R: Read>(rt: &impl Wait, from: &mut R, to: &TcpStream) -> Passed {
    let mut octet = [0];
    match receive(rt, from, &mut octet) {
        Received::Octets(_) if send(to, &octet) => Passed::Octet(octet[0]),
        Received::Octets(_) => Passed::Nothing,
        Received::Silence => Passed::Nothing,
        Received::End => Passed::Nothing,
        Received::WebRequest => Passed::WebRequest,
    }
}

/// Passes on the telegrams of both directions: replies in a thread of their own, requests, from this source, in this one.
/// Returns an error if memory or a thread is refused.
fn pass_both<H: Threads + Wait + Clock + Copy + Send + 'static>(
    rt: H,
    alloc: Global,
    link: &Arc<Link, Global>,
    shared: Arc<Shared, Global>,
    address: u8,
    source: Source,
) -> Result<(), AllocError> {
    let (of_requests, of_replies) = shared.random_words(&rt, address);
    let of_line = Source::Line(Arc::try_clone(link)?);
    let replies = Opening {
        shared: Arc::try_clone(&shared)?,
        address,
        direction: Direction::Reply,
        source: of_line,
        random_words: of_replies,
    };
    let requests = Opening {
        shared,
        address,
        direction: Direction::Request,
        source,
        random_words: of_requests,
    };
    let replies = open_way(rt, alloc, link, replies)?;
    let requests = open_way(rt, alloc, link, requests)?;
    let passing = move || pass_all(rt, replies);
    if thread::spawn(&rt, passing).is_err() {
        return Err(AllocError);
    }
    pass_all(rt, requests);
    Ok(())
}

/// What one direction of a connection begins with.
#[derive(Drop)]
struct Opening {
    shared: Arc<Shared, Global>,
    /// The address of the master.
    address: u8,
    direction: Direction,
    source: Source,
    random_words: RandomWords,
}

/// Returns one direction of a connection, and starts the thread that writes what is late in it.
fn open_way<H: Threads + Wait + Clock + Copy + Send + 'static>(
    rt: H,
    alloc: Global,
    link: &Arc<Link, Global>,
    opening: Opening,
) -> Result<Way, AllocError> {
    let Opening {
        shared,
        address,
        direction,
        source,
        random_words,
    } = opening;
    let Ok(start) = Instant::now(&rt) else {
        return Err(AllocError);
    };
    let Ok((sender, delayed)) = bounded(alloc, MOST_DELAYED) else {
        return Err(AllocError);
    };
    let left = Arc::new(alloc, AtomicU32::new(0))?;
    let count = Arc::try_clone(&left)?;
    let of_delayed = Arc::try_clone(link)?;
    let writing = move || write_delayed(rt, of_delayed, direction, start, delayed, count);
    if thread::spawn(&rt, writing).is_err() {
        return Err(AllocError);
    }
    Ok(Way {
        shared,
        link: Arc::try_clone(link)?,
        address,
        direction,
        source,
        random_words,
        delayed: DelayedSender::new(sender, left),
        start,
        pace: Pace::new(),
        cutter: Cutter::new(),
        has_limit: false,
    })
}
