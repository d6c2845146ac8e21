//! The page of a rack that is served: the thread that shows it, and the thread that serves the rack.

use crate::descriptors::HeldDescriptors;
use crate::host::WatchHost;
use crate::opening::{open_page, write_address};
use crate::processor_share::ProcessorShare;
use crate::watch::{Folder, watch_at};
use crate::watch_fault::WatchFault;
use crossbeam_channel::{Receiver, Sender, bounded};
use rack_file::read_rack;
use std::alloc::{AllocError, Global};
use std::io::{self, Write};
use std::net::TcpListener;
use std::sync::Wait;

/// The most reports of the page that wait.
const MOST_REPORTS: usize = 2;

/// What the thread of the page reports: that all threads of the page have started, or why it has ended.
type PageReport = Result<(), WatchFault>;

/// The page of a rack that is served, for the thread that shows it. Its threads last as long as the program.
#[derive(Drop)]
pub struct ServedPage {
    listener: TcpListener,
    port: u16,
    /// The text of the rack file, and its path.
    text: String,
    rack: String,
    folder: String,
    reports: Sender<PageReport>,
    /// Ends once the rack has all that it needs.
    shut: Receiver<()>,
}

/// The page of a rack that is served, for the thread that serves the rack.
#[derive(Drop)]
pub struct StartingPage {
    port: u16,
    reports: Receiver<PageReport>,
    shut: ShutPage,
}

/// A page that serves nothing yet. Its descriptors are held, so that those which the rack needs are others. The page is
/// served once this is dropped.
#[derive(Drop)]
pub struct ShutPage {
    held: HeldDescriptors,
    shut: Sender<()>,
}

/// Listens at the port of the page of a rack that is served, and holds its descriptors. The rack has this text, of the file
/// `rack`, and its audit texts are in the folder. A rack that is not accepted has no page, because serving reports its fault.
///
/// Returns `CannotListen` if the port cannot be listened at or there are too few descriptors, or `OutOfMemory`.
pub fn open_served_page<H: WatchHost>(
    rt: &H,
    text: &str,
    rack: &str,
    folder: &str,
    port: u16,
) -> Result<Option<(ServedPage, StartingPage)>, WatchFault> {
    let alloc = rt.alloc();
    let Ok(accepted) = read_rack(alloc, text) else {
        return Ok(None);
    };
    let (listener, port, held) = match open_page(rt, port, accepted.lines.len()) {
        Ok(opened) => opened,
        Err(fault) => return Err(fault),
    };
    match join_page(alloc, listener, port, held, (text, rack, folder)) {
        Ok(both) => Ok(Some(both)),
        Err(_) => Err(WatchFault::OutOfMemory),
    }
}

/// Returns the two sides of a page, of a rack with this text and path, and of this folder.
fn join_page(
    alloc: Global,
    listener: TcpListener,
    port: u16,
    held: HeldDescriptors,
    (text, rack, folder): (&str, &str, &str),
) -> Result<(ServedPage, StartingPage), AllocError> {
    let (sender, reports) = bounded(alloc, MOST_REPORTS)?;
    let (opening, shut) = bounded(alloc, 1)?;
    let page = ServedPage {
        listener,
        port,
        text: String::from_str(alloc, text)?,
        rack: String::from_str(alloc, rack)?,
        folder: String::from_str(alloc, folder)?,
        reports: sender,
        shut,
    };
    let starting = StartingPage {
        port,
        reports,
        shut: ShutPage {
            held,
            shut: opening,
        },
    };
    Ok((page, starting))
}

impl ServedPage {
    /// Starts the threads of the page and reports that, waits until the rack has all that it needs, and then shows the
    /// rack, with a tenth of a processor at the most. A later fault ends the page only, and the rack is still served.
    pub fn show<H: WatchHost + Sync>(&self, rt: &H) {
        let watched = Folder {
            rack: self.text.as_str(),
            file: self.rack.as_str(),
            folder: self.folder.as_str(),
        };
        let (reports, shut) = (&self.reports, &self.shut);
        let ended = watch_at(
            rt,
            &self.listener,
            self.port,
            watched,
            ProcessorShare::Tenth,
            move || -> Result<(), WatchFault> {
                let _ = reports.send(rt, Ok(()));
                let _ = shut.recv(rt);
                Ok(())
            },
        );
        let _ = self.reports.send(rt, ended);
    }
}

impl StartingPage {
    /// Waits until all threads of the page have started, and writes its address on standard output.
    ///
    /// Returns the fault with which the page ended, or `WriteFault` if the address cannot be written.
    pub fn wait<H: Wait + Print>(self, rt: &H) -> Result<ShutPage, WatchFault> {
        let StartingPage {
            port,
            reports,
            shut,
        } = self;
        let started = match reports.recv(rt) {
            Ok(report) => report,
            Err(_) => Err(WatchFault::FewThreads),
        };
        match started {
            Ok(()) => {}
            Err(fault) => return Err(fault),
        }
        match write_address(rt, port) {
            Ok(()) => Ok(shut),
            Err(fault) => Err(fault),
        }
    }
}

/// Standard output of a rack that is served. Its first row is `ready`, for which the rack has all that it needs: with it
/// the page is served too.
#[derive(Drop)]
pub struct OpeningOutput<W> {
    /// Standard output.
    pub output: W,
    /// The page, until something is written.
    pub page: Option<ShutPage>,
}

impl<W: Write> Write for OpeningOutput<W> {
    fn write(&mut self, buf: &[u8]) -> io::Result<usize> {
        self.page = None;
        self.output.write(buf)
    }

    fn flush(&mut self) -> io::Result<()> {
        self.output.flush()
    }
}
