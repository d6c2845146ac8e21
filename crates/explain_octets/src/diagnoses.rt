//! Diagnoses in words.

ghost use Rattle.std.specs.Prelude.{◌≡◌, ◌≤◌, Some, drop, length};
ghost use Rattle.std.specs.Fmt.{WritesOnOk};
ghost use Rattle.explain_octets.specs.Diagnoses.{diagnosis_words, extended_text, holder_text, status_1_rows, status_2_rows, status_3_rows, status_text, whole_text};

use crate::blocks::Blocks;
use crate::words::{Flag, Hex, Ident, Names};
use dp_diag::NO_MASTER;
use std::fmt;

/// The number of octets before the extended diagnosis.
const HEAD: usize = 6;

/// The octets of a diagnosis, in words.
#[derive(Drop)]
pub(crate) struct Diagnosis<'a>(pub(crate) &'a [u8]);

impl<'a> fmt::Display for Diagnosis<'a> {
    ghost output = { λ octets. Some (diagnosis_words octets.0.now) };

    #[tactic(auto, unfolding(crate::specs::Diagnoses::diagnosis_words))]
    fn fmt<W: fmt::Write>(&self, f: &mut fmt::Formatter<W>) -> fmt::Result {
        if self.0.len() < HEAD {
            let octets = Hex(self.0);
            return write!(f, "data {octets}");
        }
        write_whole(f, self.0)
    }
}

/// Writes a diagnosis of at least six octets.
#[tactic(auto, unfolding(crate::specs::Diagnoses::whole_text))]
fn write_whole<W: fmt::Write>(f: &mut fmt::Formatter<W>, octets: &[u8]) -> fmt::Result
    requires { 6 ≤ length octets.now }
    ensures { WritesOnOk W.Write.write_str_gives f.old result (whole_text octets.now) f.new }
{
    let status_1 = Status1(octets[0]);
    let status_2 = Status2(octets[1]);
    let status_3 = Status3(octets[2]);
    let holder = Holder(octets[3]);
    let ident = Ident(octets[4], octets[5]);
    let extended = Extended(behind_head(octets));
    write!(
        f,
        "{status_1}{status_2}{status_3}{holder}; {ident}{extended}"
    )
}

/// Returns the octets of the extended diagnosis: those after the first six.
fn behind_head(octets: &[u8]) -> &[u8]
    requires { 6 ≤ length octets.now }
    ensures { result.now ≡ drop 6 octets.now }
{
    &octets[HEAD..]
}

/// Station_status_1, in words.
#[derive(Clone, Copy)]
struct Status1(u8);

impl fmt::Display for Status1 {
    ghost output = { λ octet. Some (status_text (status_1_rows octet.0)) };

    fn fmt<W: fmt::Write>(&self, f: &mut fmt::Formatter<W>) -> fmt::Result {
        let flags = [
            Flag::of_bit(1, self.0, "Station_Not_Ready"),
            Flag::of_bit(2, self.0, "Cfg_Fault"),
            Flag::of_bit(3, self.0, "Ext_Diag"),
            Flag::of_bit(4, self.0, "Not_Supported"),
            Flag::of_bit(6, self.0, "Prm_Fault"),
        ];
        let names = Names {
            flags: &flags,
            none: "",
            behind: "; ",
        };
        write!(f, "{names}")
    }
}

/// Station_status_2, in words.
#[derive(Clone, Copy)]
struct Status2(u8);

impl fmt::Display for Status2 {
    ghost output = { λ octet. Some (status_text (status_2_rows octet.0)) };

    fn fmt<W: fmt::Write>(&self, f: &mut fmt::Formatter<W>) -> fmt::Result {
        let flags = [
            Flag::of_bit(0, self.0, "Prm_Req"),
            Flag::of_bit(1, self.0, "Stat_Diag"),
            Flag::of_bit(3, self.0, "WD_On"),
            Flag::of_bit(4, self.0, "Freeze_Mode"),
            Flag::of_bit(5, self.0, "Sync_Mode"),
        ];
        let names = Names {
            flags: &flags,
            none: "",
            behind: "; ",
        };
        write!(f, "{names}")
    }
}

/// Station_status_3, in words.
#[derive(Clone, Copy)]
struct Status3(u8);

impl fmt::Display for Status3 {
    ghost output = { λ octet. Some (status_text (status_3_rows octet.0)) };

    fn fmt<W: fmt::Write>(&self, f: &mut fmt::Formatter<W>) -> fmt::Result {
        let flags = [Flag::of_bit(7, self.0, "Ext_Diag_Overflow")];
        let names = Names {
            flags: &flags,
            none: "",
            behind: "; ",
        };
        write!(f, "{names}")
    }
}

/// Master_Add, in words.
#[derive(Clone, Copy)]
struct Holder(u8);

impl fmt::Display for Holder {
    ghost output = { λ octet. Some (holder_text octet.0) };

    fn fmt<W: fmt::Write>(&self, f: &mut fmt::Formatter<W>) -> fmt::Result {
        match self.0 {
            NO_MASTER => f.write_str("held by nobody"),
            master => write!(f, "held by master {master}"),
        }
    }
}

/// The octets of the extended diagnosis in hex, and in words if they have the form of blocks; writes nothing if there are
/// none.
#[derive(Drop)]
struct Extended<'a>(&'a [u8]);

impl<'a> fmt::Display for Extended<'a> {
    ghost output = { λ octets. Some (extended_text octets.0.now) };

    fn fmt<W: fmt::Write>(&self, f: &mut fmt::Formatter<W>) -> fmt::Result {
        match self.0 {
            [] => Ok(()),
            octets => {
                let blocks = Blocks(octets);
                let octets = Hex(octets);
                write!(f, "; extended diagnosis {octets}{blocks}")
            }
        }
    }
}
