//! Opening the page of a rack: its listener, its descriptors and its address.

use crate::descriptors::HeldDescriptors;
use crate::host::WatchHost;
use crate::processor_share::ProcessorShare;
use crate::watch::{Folder, listen, watch_at};
use crate::watch_fault::WatchFault;
use rack_file::read_rack;
use std::io::{self, Write};
use std::net::TcpListener;

/// Shows the rack of this text, which is that of a file, and the audit texts of a folder, at this port, or at one that the
/// system chooses for 0. It writes the address of the page on standard output, and ends only with a fault.
///
/// Returns `Rack` if the rack is not accepted, `CannotListen` if the port cannot be listened at or there are too few
/// descriptors, `FewThreads` if a thread is refused, `OutOfMemory`, and `WriteFault` if the address cannot be written.
pub fn watch_text<H: WatchHost + Print + Sync>(
    rt: &H,
    text: &str,
    rack: &str,
    folder: &str,
    port: u16,
) -> Result<(), WatchFault> {
    let lines = match read_rack(rt.alloc(), text) {
        Ok(rack) => rack.lines.len(),
        Err(fault) => return Err(WatchFault::Rack(fault)),
    };
    let (listener, port, held) = open_page(rt, port, lines)?;
    let watched = Folder {
        rack: text,
        file: rack,
        folder,
    };
    watch_at(
        rt,
        &listener,
        port,
        watched,
        ProcessorShare::Whole,
        move || -> Result<(), WatchFault> {
            drop(held);
            write_address(rt, port)
        },
    )
}

/// Listens at a port, and holds the descriptors that the page of this number of lines needs. Returns the listener and
/// its port too.
pub(crate) fn open_page<H: WatchHost>(
    rt: &H,
    port: u16,
    lines: usize,
) -> Result<(TcpListener, u16, HeldDescriptors), WatchFault> {
    let listener = match listen(rt, port) {
        Ok(listener) => listener,
        Err(fault) => return Err(fault),
    };
    let port = match listener.local_addr() {
        Ok(address) => address.port(),
        Err(_) => port,
    };
    match HeldDescriptors::hold(rt.alloc(), &listener, port, lines) {
        Ok(held) => Ok((listener, port, held)),
        Err(fault) => Err(fault),
    }
}

/// Writes the address of the page on standard output.
pub(crate) fn write_address(rt: &impl Print, port: u16) -> Result<(), WatchFault> {
    let mut output = io::writer(rt);
    if write!(output, "watching at http://127.0.0.1:{port}/\n").is_err() {
        return Err(WatchFault::WriteFault);
    }
    Ok(())
}
