//! Serves a rack, and shows it in a browser if a page is asked for.

use crate::note_served;
use crate::watching::fault_of;
use audit_host::{buffered, flushed};
use command_host::read_file;
use rack_script::RunFault;
use rackd_faults::{Fault, ended, reported};
use serve_faults::ServeFault;
use serve_log::{RowQueue, Written};
use serve_options::ServeOptions;
use serve_rack::{Host, InputEnd, serve_text};
use std::alloc::Global;
use std::io::Read;
use std::process::ExitCode;
use std::sync::Wait;
use std::thread::Threads;
use watch_host::{OpeningOutput, ServedPage, ShutPage, StartingPage, WatchHost, open_served_page};

/// What is made before a rack is served.
#[derive(Drop)]
pub(crate) struct Prepared<H: Wait> {
    /// The text of the rack file.
    pub(crate) rack: String,
    /// The page, if there is one.
    pub(crate) page: Option<ShutPage>,
    /// The input with whose end serving stops, if there is one.
    pub(crate) input: Option<InputEnd>,
    /// The queue of rows for standard error.
    pub(crate) queue: RowQueue<H>,
    /// Shows whether the rows of the queue have been written.
    pub(crate) written: Written,
}

/// Reads the rack file, opens the page if there is one, watches the input if serving ends with it, starts the queue of rows for
/// standard error, and starts the page: `start_page` starts the thread that shows it, and returns whether it was started. With
/// the queue, serving never waits until these rows are read.
pub(crate) fn prepare<
    'a,
    H: WatchHost + Copy + Send + Sync + 'static,
    I: Read + Send + Drop + 'static,
    S: FnOnce(ServedPage) -> bool,
>(
    rt: H,
    rack: &'a str,
    options: ServeOptions<'_>,
    input: I,
    start_page: S,
) -> Result<Prepared<H>, Fault<'a>>
    requires { S.IsAlwaysCallable start_page }
{
    let text = read_file(&rt, rack)?;
    let page = open_page(&rt, text.as_str(), rack, options)?;
    let input = watch_input(&rt, options, input)?;
    let Ok((queue, written)) = serve_log::start(rt, rt.alloc()) else {
        return Err(Fault::Run(RunFault::OutOfMemory));
    };
    let page = show_page(&rt, page, start_page)?;
    Ok(Prepared {
        rack: text,
        page,
        input,
        queue,
        written,
    })
}

/// Opens the page that the options ask for, if they do.
fn open_page<'a, H: WatchHost>(
    rt: &H,
    text: &str,
    rack: &str,
    options: ServeOptions<'_>,
) -> Result<Option<(ServedPage, StartingPage)>, Fault<'a>> {
    let (Some(folder), Some(port)) = (options.audit, options.page) else {
        return Ok(None);
    };
    match open_served_page(rt, text, rack, folder, port) {
        Ok(page) => Ok(page),
        Err(fault) => Err(fault_of(fault)),
    }
}

/// Starts the thread of a page, if there is one, and waits until it has started all its threads.
fn show_page<'a, H: WatchHost, S: FnOnce(ServedPage) -> bool>(
    rt: &H,
    page: Option<(ServedPage, StartingPage)>,
    start_page: S,
) -> Result<Option<ShutPage>, Fault<'a>>
    requires { S.IsAlwaysCallable start_page }
{
    let Some((page, starting)) = page else {
        return Ok(None);
    };
    if !start_page(page) {
        return Err(Fault::FewThreads);
    }
    match starting.wait(rt) {
        Ok(shut) => Ok(Some(shut)),
        Err(fault) => Err(fault_of(fault)),
    }
}

/// Reads the input until it ends, if serving ends with it.
fn watch_input<
    'a,
    H: Threads + Wait + AllocGlobal + Copy + Send + 'static,
    I: Read + Send + Drop + 'static,
>(rt: &H, options: ServeOptions<'_>, input: I) -> Result<Option<InputEnd>, Fault<'a>> {
    if !options.until_input_ends {
        return Ok(None);
    }
    match InputEnd::watch(rt, rt.alloc(), input) {
        Some(watched) => Ok(Some(watched)),
        None => Err(Fault::Run(RunFault::OutOfMemory)),
    }
}

/// Serves the rack of the file with this path, and reports how that ended.
pub(crate) fn serve_rack<H: Print + Host + Sync>(
    rt: &H,
    errors: &impl Eprint,
    alloc: Global,
    path: &str,
    rack: &str,
    options: ServeOptions<'_>,
    input: Option<InputEnd>,
    page: Option<ShutPage>,
) -> ExitCode {
    let served = serve_out(rt, alloc, rack, options, input.as_ref(), page);
    ended(errors, reported(errors, alloc, path, rack, served))
}

/// Serves a rack, writes its output on standard output, and logs the number of sessions served. The page is served once
/// `ready` is written.
fn serve_out<'a, H: Print + Host + Sync>(
    rt: &H,
    alloc: Global,
    rack: &str,
    options: ServeOptions<'a>,
    input: Option<&InputEnd>,
    page: Option<ShutPage>,
) -> Result<ExitCode, Fault<'a>> {
    let mut output = OpeningOutput {
        output: buffered(rt, alloc)?,
        page,
    };
    let served = serve_text(rt, alloc, rack, options, input, &mut output);
    flushed(output.output)?;
    match served {
        Ok(served) => Ok(note_served(rt, served)),
        Err(ServeFault::CannotMakePorts(cause)) => {
            let path = options.ports.unwrap_or("");
            Err(Fault::CannotMake(path, cause))
        }
        Err(fault) => Err(Fault::from(fault)),
    }
}
