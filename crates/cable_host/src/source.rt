//! Where the telegrams of a direction come from.

use crate::link::Link;
use serve_sockets::{Client, Screened};
use std::alloc::Global;
use std::io::{self, Read};
use std::sync::Arc;

/// The connection of a master.
#[derive(Drop)]
pub(crate) struct MasterStream {
    link: Arc<Link, Global>,
}

impl Read for MasterStream {
    fn read(&mut self, buf: &mut [u8]) -> io::Result<usize> {
        let mut stream = &self.link.master;
        stream.read(buf)
    }
}

/// Where the telegrams of a direction come from.
#[derive(Drop)]
pub(crate) enum Source {
    /// The connection of the master. A read fails with `InvalidData` if a web page has made it.
    Master(Screened<MasterStream>),
    /// The connection to the line.
    Line(Arc<Link, Global>),
}

impl Source {
    /// Returns the source of requests.
    pub(crate) fn of_requests(link: Arc<Link, Global>) -> Source {
        Source::Master(Screened::new(MasterStream { link }, Client::Master))
    }
}

impl Read for Source {
    fn read(&mut self, buf: &mut [u8]) -> io::Result<usize> {
        match self {
            Source::Master(screened) => screened.read(buf),
            Source::Line(link) => {
                let mut stream = &link.line;
                stream.read(buf)
            }
        }
    }
}
