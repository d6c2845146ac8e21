//! Accepting the masters of a line, and passing their sessions to the workers.

use crate::server_context::ServerContext;
use crossbeam_channel::Sender;
use dp_sessions::Job;
use log::Log;
use serve_log::Client;
use serve_sockets::{Accept, Awaited, ConnectionReader, ConnectionWriter, open_connection};
use std::io;
use std::net::{TcpListener, TcpStream};
use std::sync::Wait;
use std::time::Clock;

/// A session of a master on a connection, for a worker.
pub type MasterJob<'a, H> = Job<ConnectionReader<'a, H>, ConnectionWriter<'a, H>>;

/// Accepts the masters of a line, and passes their sessions to the workers.
#[derive(Drop)]
pub struct MasterAcceptor<'a, H: Wait> {
    /// The listener at the port for masters.
    pub listener: TcpListener,
    /// The index of the port among those of the workers.
    pub port: u8,
    /// The number of the line.
    pub line: u8,
    /// The queue of sessions for the workers.
    pub jobs: Sender<MasterJob<'a, H>>,
    /// What the threads share.
    pub context: &'a ServerContext<'a, H>,
}

impl<'a, H: Wait + Log + Clock> MasterAcceptor<'a, H> {
    /// Returns the session of a master on a connection.
    fn job_of(&self, stream: TcpStream) -> io::Result<MasterJob<'a, H>> {
        let (reader, writer) = open_connection(
            &self.context.sockets,
            self.line,
            stream,
            Client::Master,
            Awaited::Address,
        )?;
        Ok(Job {
            port: self.port,
            reader,
            writer,
        })
    }
}

impl<L: Wait + Log + Clock> Accept for MasterAcceptor<'_, L> {
    fn listener(&self) -> &TcpListener {
        &self.listener
    }

    fn take<H: Wait>(&self, rt: &H, stream: TcpStream) -> bool {
        match self.job_of(stream) {
            Ok(job) => {
                let context = self.context;
                context.sockets.notes.waits(rt, self.port);
                self.jobs.send(rt, job).is_ok()
            }
            Err(error) => {
                self.report(rt, error);
                true
            }
        }
    }

    fn report<H: Wait>(&self, rt: &H, error: io::Error) {
        let context = self.context;
        context
            .sockets
            .notes
            .cannot_accept(rt, self.line, Client::Master, error);
    }
}
