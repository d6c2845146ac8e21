//! User parameters in the form of DP-V1, in words.

ghost use Rattle.std.specs.Prelude.{◌≡◌, Some};
ghost use Rattle.explain_octets.specs.DpV1.{alarm_mode_text, dp_v1_names, dp_v1_text, has_alarm_mode, has_dp_v1_form};

use crate::words::{Flag, Names, is_set};
use std::fmt;

/// The names of the bits of user parameters that have the form of DP-V1, after a space and in parentheses (IEC 61158-6-3,
/// DPV1_Status_1 to DPV1_Status_3). Writes nothing for user parameters of another form.
#[derive(Drop)]
pub(crate) struct DpV1<'a>(pub(crate) &'a [u8]);

impl<'a> fmt::Display for DpV1<'a> {
    ghost output = { λ octets. Some (dp_v1_text octets.0.now) };

    fn fmt<W: fmt::Write>(&self, f: &mut fmt::Formatter<W>) -> fmt::Result {
        let [first, second, third, ..] = self.0 else {
            return Ok(());
        };
        if !has_dp_v1_form(*first, *second, *third) {
            return Ok(());
        }
        let names = StatusNames {
            first: *first,
            second: *second,
            third: *third,
        };
        write!(f, " ({names})")
    }
}

/// Returns whether three octets have the form of DP-V1: their reserved bits are 0, and not all of them are 0.
#[tactic(auto, unfolding(crate::specs::DpV1::has_dp_v1_form))]
fn has_dp_v1_form(first: u8, second: u8, third: u8) -> bool
    ensures { result ≡ has_dp_v1_form first second third }
{
    let is_reserved_set = is_set(4, first)
        || is_set(3, first)
        || is_set(1, second)
        || is_set(6, third)
        || is_set(5, third);
    let are_zero = first == 0 && second == 0 && third == 0;
    !is_reserved_set && !are_zero
}

/// The names of the bits that are 1 in the first three user parameters.
#[derive(Clone, Copy)]
struct StatusNames {
    first: u8,
    second: u8,
    third: u8,
}

impl fmt::Display for StatusNames {
    ghost output = { λ names. Some (dp_v1_names names.first names.second names.third) };

    #[tactic(auto, unfolding(crate::specs::DpV1::dp_v1_names))]
    fn fmt<W: fmt::Write>(&self, f: &mut fmt::Formatter<W>) -> fmt::Result {
        let flags = [
            Flag::of_bit(7, self.first, "DPV1_Enable"),
            Flag::of_bit(6, self.first, "Fail_Safe"),
            Flag::of_bit(5, self.first, "Publisher_Enable"),
            Flag::of_bit(2, self.first, "WD_Base_1ms"),
            Flag::of_bit(1, self.first, "Dis_Stopbit_Control"),
            Flag::of_bit(0, self.first, "Dis_Startbit_Control"),
            Flag::of_bit(7, self.second, "Enable_Pull_Plug_Alarm"),
            Flag::of_bit(6, self.second, "Enable_Process_Alarm"),
            Flag::of_bit(5, self.second, "Enable_Diagnostic_Alarm"),
            Flag::of_bit(4, self.second, "Enable_Manufacturer_Specific_Alarm"),
            Flag::of_bit(3, self.second, "Enable_Status_Alarm"),
            Flag::of_bit(2, self.second, "Enable_Update_Alarm"),
            Flag::of_bit(0, self.second, "Chk_Cfg_Mode"),
            Flag::of_bit(7, self.third, "Prm_Cmd"),
            Flag::of_bit(4, self.third, "IsoM_Req"),
            Flag::of_bit(3, self.third, "Prm_Structure"),
            Flag::new(has_alarm_mode(self.third), alarm_mode(self.third)),
        ];
        let names = Names {
            flags: &flags,
            none: "",
            behind: "",
        };
        write!(f, "{names}")
    }
}

/// Returns whether the alarm mode, bits 2 to 0 of the third user parameter, is not 0.
fn has_alarm_mode(third: u8) -> bool
    ensures { result ≡ has_alarm_mode third }
{
    third & 0b111 != 0
}

/// Returns the alarm mode by its number, bits 2 to 0 of the third user parameter.
fn alarm_mode(third: u8) -> &'static str
    ensures { result.now ≡ alarm_mode_text third }
{
    match third & 0b111 {
        0 => "Alarm_Mode 0",
        1 => "Alarm_Mode 1",
        2 => "Alarm_Mode 2",
        3 => "Alarm_Mode 3",
        4 => "Alarm_Mode 4",
        5 => "Alarm_Mode 5",
        6 => "Alarm_Mode 6",
        _ => "Alarm_Mode 7",
    }
}
