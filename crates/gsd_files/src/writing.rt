//! Writes the GSD file of a slave.

ghost use Rattle.std.specs.Prelude.{◌≡◌, ◌+◌, ◌++◌, ◌<◌, ◌≤◌, true, OnOk, IfOk, length};
ghost use Rattle.std.specs.Fmt.{decimal, digit_glyph};
ghost use Rattle.gsd_files.specs.GsdText.{number_line, text_line, hex_2, flag, separator, octets_text, modules_text, module_text, ident_line, head_text, revision_text, kind_text, rates_text, times_text, cable_text, names_text, fixed_text, modes_text, sizes_text, lengths_text, is_modular, gsd_text};

use crate::sizes::{Sizes, sizes_of};
use dp_slave::{Configuration, SlaveSpec};
use std::alloc::{AllocError, Global};

/// Returns the first rows.
#[tactic(auto, unfolding(crate::specs::GsdText::head_text))]
fn head() -> &'static [u8]
    ensures { result.now ≡ head_text }
{
    b"#Profibus_DP\r\nGSD_Revision = 3\r\n"
}

/// Returns the row of the revision.
#[tactic(auto, unfolding(crate::specs::GsdText::revision_text))]
fn revision() -> &'static [u8]
    ensures { result.now ≡ revision_text }
{
    b"Revision = \"1.0\"\r\n"
}

/// Returns the rows that say what kind of station a slave is.
#[tactic(auto, unfolding(crate::specs::GsdText::kind_text))]
fn kind() -> &'static [u8]
    ensures { result.now ≡ kind_text }
{
    b"Protocol_Ident = 0\r\nStation_Type = 0\r\nFMS_supp = 0\r\nHardware_Release = \"1.0\"\r\nSoftware_Release = \"1.0\"\r\n"
}

/// Returns the rows of the rates.
#[tactic(auto, unfolding(crate::specs::GsdText::rates_text))]
fn rates() -> &'static [u8]
    ensures { result.now ≡ rates_text }
{
    b"9.6_supp = 1\r\n19.2_supp = 1\r\n45.45_supp = 1\r\n93.75_supp = 1\r\n187.5_supp = 1\r\n500_supp = 1\r\n1.5M_supp = 1\r\n3M_supp = 1\r\n6M_supp = 1\r\n12M_supp = 1\r\n"
}

/// Returns the rows of the times of replies.
#[tactic(auto, unfolding(crate::specs::GsdText::times_text))]
fn times() -> &'static [u8]
    ensures { result.now ≡ times_text }
{
    b"MaxTsdr_9.6 = 60\r\nMaxTsdr_19.2 = 60\r\nMaxTsdr_45.45 = 60\r\nMaxTsdr_93.75 = 60\r\nMaxTsdr_187.5 = 60\r\nMaxTsdr_500 = 100\r\nMaxTsdr_1.5M = 150\r\nMaxTsdr_3M = 250\r\nMaxTsdr_6M = 450\r\nMaxTsdr_12M = 800\r\n"
}

/// Returns the rows of the cable and of what a slave supports.
#[tactic(auto, unfolding(crate::specs::GsdText::cable_text))]
fn cable() -> &'static [u8]
    ensures { result.now ≡ cable_text }
{
    b"Redundancy = 0\r\nRepeater_Ctrl_Sig = 0\r\n24V_Pins = 0\r\nAuto_Baud_supp = 1\r\nSet_Slave_Add_supp = 0\r\nMin_Slave_Intervall = 1\r\nSlave_Family = 0\r\nMax_Diag_Data_Len = 244\r\n"
}

/// Appends octets.
fn push(out: &mut Vec<u8>, octets: &[u8]) -> Result<(), AllocError>
    ensures { OnOk result (out.new.items ≡ out.old.items ++ octets.now) }
{
    out.extend_from_slice(octets)
}

/// Appends a number in plain decimal.
#[tactic(auto, using(crate::proofs::Decimals::by_last_digit))]
fn push_decimal(out: &mut Vec<u8>, number: u32) -> Result<(), AllocError>
    ensures { OnOk result (out.new.items ≡ out.old.items ++ decimal number) }
{
    if number < 10 {
        push(out, &[b'0' + number as u8])?;
        return Ok(());
    }
    push_decimal(out, number / 10)?;
    push(out, &[b'0' + (number % 10) as u8])?;
    Ok(())
}

/// Appends a row `KEY = NUMBER`.
#[tactic(auto, unfolding(crate::specs::GsdText::number_line))]
fn push_number(out: &mut Vec<u8>, key: &[u8], number: u32) -> Result<(), AllocError>
    ensures { OnOk result (out.new.items ≡ out.old.items ++ number_line key.now number) }
{
    push(out, key)?;
    push(out, b" = ")?;
    push_decimal(out, number)?;
    push(out, b"\r\n")?;
    Ok(())
}

/// Appends a row `KEY = "TEXT"`.
#[tactic(auto, unfolding(crate::specs::GsdText::text_line))]
fn push_text(out: &mut Vec<u8>, key: &[u8], text: &[u8]) -> Result<(), AllocError>
    ensures { OnOk result (out.new.items ≡ out.old.items ++ text_line key.now text.now) }
{
    push(out, key)?;
    push(out, b" = \"")?;
    push(out, text)?;
    push(out, b"\"\r\n")?;
    Ok(())
}

/// Returns a hex digit.
fn hex_digit(digit: u8) -> u8
    requires { digit < 16 }
    ensures { result ≡ digit_glyph true digit }
{
    if digit < 10 { b'0' + digit } else { 55 + digit }
}

/// Appends an octet as two hex digits.
#[tactic(auto, unfolding(crate::specs::GsdText::hex_2))]
fn push_hex(out: &mut Vec<u8>, octet: u8) -> Result<(), AllocError>
    ensures { OnOk result (out.new.items ≡ out.old.items ++ hex_2 octet) }
{
    push(out, &[hex_digit(octet / 16 % 16), hex_digit(octet % 16)])?;
    Ok(())
}

/// Appends the row of the ident number.
#[tactic(auto, unfolding(crate::specs::GsdText::ident_line))]
fn push_ident(out: &mut Vec<u8>, ident: u16) -> Result<(), AllocError>
    ensures { OnOk result (out.new.items ≡ out.old.items ++ ident_line ident) }
{
    push(out, b"Ident_Number = 0x")?;
    push_hex(out, (ident / 256 % 256) as u8)?;
    push_hex(out, (ident % 256) as u8)?;
    push(out, b"\r\n")?;
    Ok(())
}

/// Appends the rows before those that the slave decides, but for the fixed ones.
#[tactic(auto, unfolding(crate::specs::GsdText::names_text))]
fn push_names(out: &mut Vec<u8>, vendor: &[u8], model: &[u8], ident: u16) -> Result<(), AllocError>
    ensures { OnOk result (out.new.items ≡ out.old.items ++ names_text vendor.now model.now ident) }
{
    push(out, head())?;
    push_text(out, b"Vendor_Name", vendor)?;
    push_text(out, b"Model_Name", model)?;
    push(out, revision())?;
    push_ident(out, ident)?;
    Ok(())
}

/// Appends the rows that are the same for all slaves.
#[tactic(auto, unfolding(crate::specs::GsdText::fixed_text))]
fn push_fixed(out: &mut Vec<u8>) -> Result<(), AllocError>
    ensures { OnOk result (out.new.items ≡ out.old.items ++ fixed_text) }
{
    push(out, kind())?;
    push(out, rates())?;
    push(out, times())?;
    push(out, cable())?;
    Ok(())
}

/// Appends the rows of modes and parameters.
#[tactic(auto, unfolding(crate::specs::GsdText::modes_text))]
fn push_modes(out: &mut Vec<u8>, slave: &SlaveSpec) -> Result<(), AllocError>
    ensures { OnOk result (out.new.items ≡ out.old.items ++ modes_text slave.now) }
{
    push_number(out, b"Freeze_Mode_supp", flag(slave.freeze))?;
    push_number(out, b"Sync_Mode_supp", flag(slave.sync))?;
    push_number(out, b"Fail_Safe", flag(slave.failsafe))?;
    push_number(out, b"Max_User_Prm_Data_Len", u32::from(slave.user_max))?;
    push_number(out, b"Modular_Station", flag(slave.cfgs.len() > 1))?;
    Ok(())
}

/// Returns whether a slave has more than one configuration.
fn is_modular(cfgs: &[Configuration]) -> bool
    ensures { result ≡ is_modular cfgs.now }
{
    cfgs.len() > 1
}

/// Returns 1 for true and 0 for false.
fn flag(on: bool) -> u32
    ensures { result ≡ flag on }
{
    if on { 1 } else { 0 }
}

/// Appends the rows of lengths.
#[tactic(auto, unfolding(crate::specs::GsdText::sizes_text))]
fn push_sizes(out: &mut Vec<u8>, sizes: Sizes) -> Result<(), AllocError>
    ensures { OnOk result (out.new.items ≡ out.old.items ++ sizes_text sizes) }
{
    push_number(out, b"Max_Module", 1)?;
    push_number(out, b"Max_Input_Len", sizes.inputs)?;
    push_number(out, b"Max_Output_Len", sizes.outputs)?;
    push_number(out, b"Max_Data_Len", sizes.both)?;
    Ok(())
}

/// Appends the rows of lengths of a modular slave. A compact slave has none.
fn push_lengths(out: &mut Vec<u8>, modular: bool, sizes: Sizes) -> Result<(), AllocError>
    ensures { OnOk result (out.new.items ≡ out.old.items ++ lengths_text modular sizes) }
{
    if modular {
        push_sizes(out, sizes)
    } else {
        Ok(())
    }
}

/// Returns what stands between two octets, by the room behind the first one in its row.
fn separator(room: usize) -> &'static [u8]
    ensures { result.now ≡ separator room }
{
    if room == 0 { b",\\\r\n" } else { b"," }
}

/// Appends octets as `0x21,0x11`. The first row has room for this number of octets behind the first one, a further row for 15.
fn push_octets(out: &mut Vec<u8>, room: usize, octets: &[u8]) -> Result<(), AllocError>
    ensures { OnOk result (out.new.items ≡ out.old.items ++ octets_text room octets.now) }
{
    match octets {
        [] => Ok(()),
        [octet] => {
            push(out, b"0x")?;
            push_hex(out, *octet)
        }
        [octet, others @ ..] => {
            push(out, b"0x")?;
            push_hex(out, *octet)?;
            push(out, separator(room))?;
            let room = if room == 0 { 14 } else { room - 1 };
            push_octets(out, room, others)
        }
    }
}

/// Appends the rows of the module of the configuration with this number.
#[tactic(auto, unfolding(crate::specs::GsdText::module_text))]
fn push_module(out: &mut Vec<u8>, number: u8, octets: &[u8]) -> Result<(), AllocError>
    requires { number < 10 }
    ensures { OnOk result (out.new.items ≡ out.old.items ++ module_text number octets.now) }
{
    let digit = [b'0' + number];
    push(out, b"Module = \"Configuration ")?;
    push(out, &digit)?;
    push(out, b"\" ")?;
    push_octets(out, 9, octets)?;
    push(out, b"\r\n")?;
    push_decimal(out, u32::from(number) + 1)?;
    push(out, b"\r\nEndModule\r\n")?;
    Ok(())
}

/// Appends a module for each configuration; the first has this number.
fn push_modules(out: &mut Vec<u8>, number: u8, cfgs: &[Configuration]) -> Result<(), AllocError>
    requires { number + length cfgs.now ≤ 10 }
    ensures { OnOk result (out.new.items ≡ out.old.items ++ modules_text number cfgs.now) }
{
    match cfgs {
        [] => Ok(()),
        [first, others @ ..] => {
            push_module(out, number, first.as_slice())?;
            push_modules(out, number + 1, others)
        }
    }
}

/// Returns the GSD file of a slave (GSD specification, revision 3), with the names of its vendor and its model in
/// ISO 8859-1. What the description doesn't say has a default. There is one module for each configuration, with the
/// name `Configuration N`, N from 0. `AllocError` if memory runs out.
#[tactic(auto, unfolding(crate::specs::GsdText::gsd_text))]
pub fn gsd_text(
    alloc: Global,
    vendor: &[u8],
    model: &[u8],
    slave: &SlaveSpec,
) -> Result<Vec<u8>, AllocError>
    ensures { IfOk result (λ text. text.items ≡ gsd_text vendor.now model.now slave.now) }
{
    let mut out = Vec::new(alloc);
    let cfgs = slave.cfgs.as_slice();
    push_names(&mut out, vendor, model, slave.ident)?;
    push_fixed(&mut out)?;
    push_modes(&mut out, slave)?;
    push_lengths(&mut out, is_modular(cfgs), sizes_of(cfgs))?;
    push_modules(&mut out, 0, cfgs)?;
    Ok(out)
}
