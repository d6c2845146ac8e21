//! What the entries of a master left, whatever the station.

ghost use Rattle.std.specs.Prelude.{◌≡◌};
ghost use Rattle.dp_cfg.specs.Choosing.{same_octets};
ghost use Rattle.judge_rules.specs.BusFacts.{asks_freeze, asks_sync, bus_after, bus_after_request, bus_after_token, clear_after, controls_all, has_fcv, is_retry, new_bus, window_after};

use crate::entry::{Entry, Request};
use crate::parameter_rules::control_asked;
use crate::station::Last;
use dp_telegram::GLOBAL_ADDRESS;

/// The number of entries after which the hundredth ends a window.
const LAST_ENTRIES: u8 = 99;

/// The stray octets among the entries of a window of 100.
#[derive(Clone, Copy, Debug)]
pub(crate) struct Window {
    /// The number of entries, 0 to 99.
    pub(crate) entries: u8,
    /// How many of them were stray octets.
    pub(crate) strays: u8,
}

/// What the entries of a master left, whatever the station.
#[derive(Debug, Drop)]
pub(crate) struct Bus {
    /// The last entry, if it was an SRD; an SRD with FCV 1 also if a token was passed on since.
    pub(crate) last: Option<Last>,
    /// How many times in a row the last telegram was sent again without an answer, at most 255.
    pub(crate) retries: u8,
    pub(crate) window: Window,
    /// The sum of the ticks before the last Global_Control to all stations, in units of 10 ms; 0 without one.
    pub(crate) controlled: u64,
    /// Whether a Global_Control with Clear_Data went to all slaves, and none without it has followed.
    pub(crate) is_clear: bool,
    /// Whether a Set_Prm had Freeze_Req.
    pub(crate) freeze_asked: bool,
    /// Whether a Set_Prm had Sync_Req.
    pub(crate) sync_asked: bool,
}

impl Window {
    /// Returns the window after one more entry.
    fn after(self, is_stray: bool) -> Window
        ensures { result ≡ window_after self is_stray }
    {
        if self.entries >= LAST_ENTRIES {
            return Window {
                entries: 0,
                strays: 0,
            };
        }
        Window {
            entries: self.entries + 1,
            strays: if is_stray {
                self.strays.saturating_add(1)
            } else {
                self.strays
            },
        }
    }
}

impl Bus {
    /// Returns what no entry left.
    pub(crate) fn new() -> Bus
        ensures { result ≡ new_bus }
    {
        Bus {
            last: None,
            retries: 0,
            window: Window {
                entries: 0,
                strays: 0,
            },
            controlled: 0,
            is_clear: false,
            freeze_asked: false,
            sync_asked: false,
        }
    }

    /// Returns whether the request is a retry of the last entry: the same octets again, after no answer, with FCV 1 or at the
    /// same time.
    pub(crate) fn is_retry(&self, request: &Request) -> bool
        ensures { result ≡ is_retry self.now.last request.now }
    {
        match &self.last {
            Some(last) => {
                request.is_srd()
                    && !last.answered
                    && (request.fcv || last.time == request.time)
                    && same_octets(last.octets.as_slice(), request.octets.as_slice())
            }
            None => false,
        }
    }

    /// Takes the next entry.
    pub(crate) fn take(&mut self, entry: &Entry)
        ensures { self.new ≡ bus_after self.old entry.now }
    {
        match entry {
            Entry::Request(request) => self.take_request(request),
            Entry::PassedToken(_) => self.take_token(),
            Entry::Stray => {
                self.last = None;
                self.retries = 0;
                self.window = self.window.after(true);
            }
        }
    }

    /// Takes a token that is passed on: when the master has it again, an SRD with FCV 0 is a new one.
    fn take_token(&mut self)
        ensures { self.new ≡ bus_after_token self.old }
    {
        if !has_fcv(&self.last) {
            self.last = None;
        }
    }

    /// Takes the next entry, which is a request.
    fn take_request(&mut self, request: &Request)
        ensures { self.new ≡ bus_after_request self.old request.now }
    {
        self.retries = if self.is_retry(request) {
            self.retries.saturating_add(1)
        } else {
            0
        };
        self.last = if request.is_srd() {
            Some(Last::of(request))
        } else {
            None
        };
        self.window = self.window.after(false);
        if controls_all(request) {
            self.controlled = request.time;
        }
        self.is_clear = clear_after(self.is_clear, request);
        self.freeze_asked = self.freeze_asked || asks_freeze(request);
        self.sync_asked = self.sync_asked || asks_sync(request);
    }
}

/// Returns whether a request is a Global_Control to all stations.
fn controls_all(request: &Request) -> bool
    ensures { result ≡ controls_all request.now }
{
    request.address == GLOBAL_ADDRESS && control_asked(request).is_some()
}

/// Returns whether Clear_Data is in force after a request: a Global_Control with it to all slaves begins it, and one
/// without it ends it.
fn clear_after(clear: bool, request: &Request) -> bool
    ensures { result ≡ clear_after clear request.now }
{
    match control_asked(request) {
        Some(control) => {
            control.clear
                && (clear || request.address == GLOBAL_ADDRESS && control.is_to_all_groups)
        }
        None => clear,
    }
}

/// Returns whether it is a Set_Prm with Freeze_Req.
fn asks_freeze(request: &Request) -> bool
    ensures { result ≡ asks_freeze request.now }
{
    match request.asks_prm() {
        Some(parameters) => parameters.freeze,
        None => false,
    }
}

/// Returns whether it is a Set_Prm with Sync_Req.
fn asks_sync(request: &Request) -> bool
    ensures { result ≡ asks_sync request.now }
{
    match request.asks_prm() {
        Some(parameters) => parameters.sync,
        None => false,
    }
}

/// Returns whether this is an SRD with FCV 1.
fn has_fcv(last: &Option<Last>) -> bool
    ensures { result ≡ has_fcv last.now }
{
    match last {
        Some(last) => last.fcv,
        None => false,
    }
}

/// Returns whether these are the same octets.
pub(crate) fn same_octets(octets: &[u8], others: &[u8]) -> bool
    ensures { result ≡ same_octets octets.now others.now }
{
    octets == others
}
