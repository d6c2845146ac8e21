//! Set_Prm in words.

ghost use Rattle.std.specs.Prelude.{◌≡◌, ◌≤◌, ◌*◌, Some, None, if◌then◌else◌, length};
ghost use Rattle.std.specs.Fmt.{WritesOnOk};
ghost use Rattle.dp_prm.specs.Meaning.{user_prm};
ghost use Rattle.explain_octets.specs.Parameters.{locking_text, min_tsdr_alone, min_tsdr_text, parameters_text, requests_text, user_text, watchdog_text};

use crate::dp_v1::DpV1;
use crate::words::{Flag, Groups, Hex, Ident, Names, is_set};
use dp_prm::{FREEZE_REQ, LOCK_REQ, SYNC_REQ, UNLOCK_REQ, WD_ON};
use std::fmt;

/// The number of octets before the user parameters.
const HEAD: usize = 7;

/// The octets of a Set_Prm, in words.
#[derive(Drop)]
pub(crate) struct Parameters<'a>(pub(crate) &'a [u8]);

impl<'a> fmt::Display for Parameters<'a> {
    ghost output = { λ octets. Some (parameters_text octets.0.now) };

    #[tactic(auto, unfolding(crate::specs::Parameters::parameters_text))]
    fn fmt<W: fmt::Write>(&self, f: &mut fmt::Formatter<W>) -> fmt::Result {
        let octets = self.0;
        let count = octets.len();
        if count < HEAD {
            return write!(f, "too short: {count} of at least 7 octets");
        }
        if is_set(UNLOCK_REQ, octets[0]) {
            return f.write_str("Unlock_Req");
        }
        if !is_set(LOCK_REQ, octets[0]) {
            let min_tsdr = MinTsdrAlone(octets[3]);
            return write!(f, "{min_tsdr}");
        }
        write_locking(f, octets)
    }
}

/// Writes the octets of a Set_Prm that locks a slave.
#[tactic(auto, unfolding(crate::specs::Parameters::locking_text))]
fn write_locking<W: fmt::Write>(f: &mut fmt::Formatter<W>, octets: &[u8]) -> fmt::Result
    requires { 7 ≤ length octets.now }
    ensures { WritesOnOk W.Write.write_str_gives f.old result (locking_text octets.now) f.new }
{
    let requests = Requests {
        sync: is_set(SYNC_REQ, octets[0]),
        freeze: is_set(FREEZE_REQ, octets[0]),
    };
    let watchdog = Watchdog {
        is_on: is_set(WD_ON, octets[0]),
        factors: (octets[1], octets[2]),
    };
    let min_tsdr = MinTsdr(octets[3]);
    let ident = Ident(octets[4], octets[5]);
    let groups = Groups {
        octet: octets[6],
        none: "groups none",
    };
    let user = User(user_parameters(octets));
    write!(
        f,
        "{requests}; {watchdog}; {min_tsdr}; {ident}; {groups}; {user}"
    )
}

/// Returns the user parameters: the octets after the first seven.
fn user_parameters(octets: &[u8]) -> &[u8]
    requires { 7 ≤ length octets.now }
    ensures { result.now ≡ user_prm octets.now }
{
    &octets[HEAD..]
}

/// The requests of a locking Set_Prm, apart from the watchdog.
#[derive(Clone, Copy)]
struct Requests {
    sync: bool,
    freeze: bool,
}

impl fmt::Display for Requests {
    ghost output = { λ requests. Some (requests_text requests.sync requests.freeze) };

    #[tactic(auto, unfolding(crate::specs::Parameters::requests_text))]
    fn fmt<W: fmt::Write>(&self, f: &mut fmt::Formatter<W>) -> fmt::Result {
        let flags = [
            Flag::new(true, "Lock_Req"),
            Flag::new(self.sync, "Sync_Req"),
            Flag::new(self.freeze, "Freeze_Req"),
        ];
        let names = Names {
            flags: &flags,
            none: "",
            behind: "",
        };
        write!(f, "{names}")
    }
}

/// The watchdog: whether it is to run, and the two factors of its time in units of 10 ms.
#[derive(Clone, Copy)]
struct Watchdog {
    is_on: bool,
    factors: (u8, u8),
}

impl fmt::Display for Watchdog {
    ghost output = { λ watchdog. Some (watchdog_text (if watchdog.is_on then Some (watchdog.factors.0 * watchdog.factors.1) else None)) };

    fn fmt<W: fmt::Write>(&self, f: &mut fmt::Formatter<W>) -> fmt::Result {
        if !self.is_on {
            return f.write_str("watchdog off");
        }
        let units = u32::from(self.factors.0) * u32::from(self.factors.1);
        if units == 0 {
            return f.write_str("watchdog time 0");
        }
        let milliseconds = units * 10;
        write!(f, "watchdog {milliseconds} ms")
    }
}

/// Min TSDR in bit times; 0 leaves the slave's value unchanged.
#[derive(Clone, Copy)]
struct MinTsdr(u8);

impl fmt::Display for MinTsdr {
    ghost output = { λ octet. Some (min_tsdr_text octet.0) };

    fn fmt<W: fmt::Write>(&self, f: &mut fmt::Formatter<W>) -> fmt::Result {
        let octet = self.0;
        if octet == 0 {
            return f.write_str("min TSDR unchanged");
        }
        write!(f, "min TSDR {octet}")
    }
}

/// Min TSDR in bit times, when nothing else is set; 0 sets nothing.
#[derive(Clone, Copy)]
struct MinTsdrAlone(u8);

impl fmt::Display for MinTsdrAlone {
    ghost output = { λ octet. Some (min_tsdr_alone octet.0) };

    fn fmt<W: fmt::Write>(&self, f: &mut fmt::Formatter<W>) -> fmt::Result {
        let octet = self.0;
        if octet == 0 {
            return f.write_str("nothing is set");
        }
        write!(f, "min TSDR {octet} alone")
    }
}

/// The user parameters in hex, and the names of their bits if they have the form of DP-V1.
#[derive(Drop)]
struct User<'a>(&'a [u8]);

impl<'a> fmt::Display for User<'a> {
    ghost output = { λ octets. Some (user_text octets.0.now) };

    fn fmt<W: fmt::Write>(&self, f: &mut fmt::Formatter<W>) -> fmt::Result {
        match self.0 {
            [] => f.write_str("user parameters none"),
            octets => {
                let names = DpV1(octets);
                let octets = Hex(octets);
                write!(f, "user parameters {octets}{names}")
            }
        }
    }
}
