//! The service that answers the requests of a connection.

ghost use Rattle.std.specs.Prelude.{◌≡◌, IfOk};
ghost use Rattle.std.specs.Option.{option_copied};
ghost use Rattle.watch_page.specs.Answers.{IsAnswer, IsBody};

use crate::answer::fill;
use crate::page::PAGE;
use crate::script::SCRIPT;
use crate::state_source::StateSource;
use crate::style::STYLE;
use crate::target::{Target, target_of};
use bytes::Bytes;
use http::Request;
use http_server::{Response, Service};
use std::alloc::{AllocError, Global};

/// The service that answers requests for the page, its files and the state. A call does not change it.
#[derive(Drop)]
pub struct PageService<'a, S: StateSource> {
    /// Allocates the bodies of answers.
    pub alloc: Global,
    /// Returns the text of `/state.json`.
    pub source: &'a S,
    /// A Host of this server, `127.0.0.1:PORT`. A request's Host must be equal to it in every byte, or to `named`.
    pub numbered: &'a str,
    /// The other Host of this server, `localhost:PORT`.
    pub named: &'a str,
}

impl<'a, S: StateSource> PageService<'a, S> {
    /// Returns the body for a target; the query is that of the request. Fails only if memory runs out.
    fn body_for(&self, target: Target, query: Option<&str>) -> Result<Bytes, AllocError>
        ensures { IfOk result (λ body. IsBody (S.may_answer self.now.source.now) (option_copied query.entry) target body) }
    {
        match target {
            Target::UnclearHost => Ok(Bytes::from_static(b"exactly one Host is required\n")),
            Target::OtherHost => Ok(Bytes::from_static(b"this server has another name\n")),
            Target::OtherMethod => Ok(Bytes::from_static(b"only GET and HEAD\n")),
            Target::Page => Ok(Bytes::from_static(PAGE.as_bytes())),
            Target::Style => Ok(Bytes::from_static(STYLE.as_bytes())),
            Target::Script => Ok(Bytes::from_static(SCRIPT.as_bytes())),
            Target::State => {
                let text = self.source.state_text(self.alloc, query)?;
                Bytes::from_string(text)
            }
            Target::Unknown => Ok(Bytes::from_static(b"no such page\n")),
        }
    }
}

impl<'a, S: StateSource> Service for PageService<'a, S> {
    // The response is the answer to the request, and the service stays as it is.
    ghost answers = { λ old request response new.
        IsAnswer (S.may_answer old.source.now) old.numbered.now old.named.now request response × (new ≡ old) };

    fn call(
        &mut self,
        request: &Request<Bytes>,
        response: &mut Response,
    ) -> Result<(), AllocError> {
        let target = target_of(request, self.numbered, self.named);
        let body = self.body_for(target, request.uri().query())?;
        fill(response, target, body)
    }
}
