//! The keys of a GSD file.

ghost use Rattle.std.specs.Prelude.{◌≡◌};
ghost use Rattle.gsd_files.specs.Keys.{lower, same_key, begins_with, has_part, setting_named, size_named, group_named, numbered, with_argument, special_kind, kind_of, is_left, most_of};

use crate::values::number_of;

/// A key with a number that a rack file or a check of the modules uses.
#[derive(Clone, Copy)]
pub(crate) enum Setting {
    /// `Ident_Number`
    Ident,
    /// `Sync_Mode_supp`
    Sync,
    /// `Freeze_Mode_supp`
    Freeze,
    /// `Fail_Safe`
    FailSafe,
    /// `Max_User_Prm_Data_Len`
    MostParameters,
    /// `Modular_Station`
    Modular,
    /// `FixPresetModules`
    Fixed,
    /// `Max_Module`
    MostModules,
    /// `Max_Input_Len`
    MostInputs,
    /// `Max_Output_Len`
    MostOutputs,
    /// `Max_Data_Len`
    MostData,
}

/// A kind of rows that are read over.
#[derive(Clone, Copy)]
pub(crate) enum Group {
    /// Parameters and their texts.
    Parameters,
    /// The diagnosis and its texts.
    Diagnosis,
    /// All others.
    Others,
}

/// The kind of a row, by its key.
#[derive(Clone, Copy)]
pub(crate) enum Kind {
    /// `Module`
    Module,
    /// `EndModule`
    EndModule,
    /// `Preset`
    Preset,
    /// A key with a number.
    Setting(Setting),
    /// `User_Prm_Data_Len` or `Ext_Module_Prm_Data_Len`
    UserLength,
    /// `User_Prm_Data`, or `Ext_User_Prm_Data_Const`: octets of user parameters from this place, counted from 0.
    UserOctets(u32),
    /// `Ext_User_Prm_Data_Ref`: the default of a user parameter at this place, counted from 0.
    UserDefault(u32),
    /// `Slot` with this number.
    Slot(u32),
    /// A row with nothing but this number: the reference of a module.
    Reference(u32),
    /// A row that is read over.
    Left(Group),
}

/// Returns a letter in lower case, and each other octet as it is.
fn lower(octet: u8) -> u8
    ensures { result ≡ lower octet }
{
    if b'A' <= octet && octet <= b'Z' {
        octet + 32
    } else {
        octet
    }
}

/// Returns whether a key is this name, which is in lower case.
pub(crate) fn same_key(key: &[u8], name: &[u8]) -> bool
    ensures { result ≡ same_key key.now name.now }
{
    match key {
        [] => name.is_empty(),
        [octet, octets @ ..] => match name {
            [] => false,
            [letter, letters @ ..] => lower(*octet) == *letter && same_key(octets, letters),
        },
    }
}

/// Returns whether a key begins with this text, which is in lower case.
fn begins_with(key: &[u8], text: &[u8]) -> bool
    ensures { result ≡ begins_with key.now text.now }
{
    match text {
        [] => true,
        [letter, letters @ ..] => match key {
            [] => false,
            [octet, octets @ ..] => lower(*octet) == *letter && begins_with(octets, letters),
        },
    }
}

/// Returns whether a key has this text in it, which is in lower case.
fn has_part(key: &[u8], text: &[u8]) -> bool
    ensures { result ≡ has_part key.now text.now }
{
    match key {
        [] => false,
        [_octet, octets @ ..] => begins_with(key, text) || has_part(octets, text),
    }
}

/// Returns the setting with this key; None if there is none.
fn setting_named(key: &[u8]) -> Option<Setting>
    ensures { result ≡ setting_named key.now }
{
    if same_key(key, b"ident_number") {
        Some(Setting::Ident)
    } else if same_key(key, b"sync_mode_supp") {
        Some(Setting::Sync)
    } else if same_key(key, b"freeze_mode_supp") {
        Some(Setting::Freeze)
    } else if same_key(key, b"fail_safe") {
        Some(Setting::FailSafe)
    } else if same_key(key, b"max_user_prm_data_len") {
        Some(Setting::MostParameters)
    } else {
        size_named(key)
    }
}

/// Returns the setting of a size with this key; None if there is none.
fn size_named(key: &[u8]) -> Option<Setting>
    ensures { result ≡ size_named key.now }
{
    if same_key(key, b"modular_station") {
        Some(Setting::Modular)
    } else if same_key(key, b"fixpresetmodules") {
        Some(Setting::Fixed)
    } else if same_key(key, b"max_module") {
        Some(Setting::MostModules)
    } else if same_key(key, b"max_input_len") {
        Some(Setting::MostInputs)
    } else if same_key(key, b"max_output_len") {
        Some(Setting::MostOutputs)
    } else if same_key(key, b"max_data_len") {
        Some(Setting::MostData)
    } else {
        None
    }
}

/// Returns the kind of rows that a key which is read over belongs to.
fn group_named(key: &[u8]) -> Group
    ensures { result ≡ group_named key.now }
{
    if has_part(key, b"prm") {
        Group::Parameters
    } else if has_part(key, b"diag") {
        Group::Diagnosis
    } else {
        Group::Others
    }
}

/// Returns the kind of a row by its key with this number as its argument; None if there is none.
fn numbered(key: &[u8], number: u32) -> Option<Kind>
    ensures { result ≡ numbered key.now number }
{
    if same_key(key, b"ext_user_prm_data_const") {
        Some(Kind::UserOctets(number))
    } else if same_key(key, b"ext_user_prm_data_ref") {
        Some(Kind::UserDefault(number))
    } else if same_key(key, b"slot") {
        Some(Kind::Slot(number))
    } else {
        None
    }
}

/// Returns the kind of a row by its key with this argument, or without one if it is empty; None if there is none.
#[tactic(auto, unfolding(crate::specs::Keys::with_argument))]
fn with_argument(key: &[u8], argument: &[u8]) -> Option<Kind>
    ensures { result ≡ with_argument key.now argument.now }
{
    if argument.len() > 0 {
        numbered(key, number_of(argument)?)
    } else {
        Some(Kind::Reference(number_of(key)?))
    }
}

/// Returns the kind of a row of user parameters, of a slot or of a reference; None for other rows.
fn special_kind(key: &[u8], argument: &[u8]) -> Option<Kind>
    ensures { result ≡ special_kind key.now argument.now }
{
    if same_key(key, b"user_prm_data_len") {
        return Some(Kind::UserLength);
    }
    if same_key(key, b"ext_module_prm_data_len") {
        return Some(Kind::UserLength);
    }
    if same_key(key, b"user_prm_data") {
        return Some(Kind::UserOctets(0));
    }
    with_argument(key, argument)
}

/// Returns whether a row of this kind is read over.
pub(crate) fn is_left(kind: Kind) -> bool
    ensures { result ≡ is_left kind }
{
    match kind {
        Kind::Left(_) => true,
        Kind::Module => false,
        Kind::EndModule => false,
        Kind::Preset => false,
        Kind::Setting(_) => false,
        Kind::UserLength => false,
        Kind::UserOctets(_) => false,
        Kind::UserDefault(_) => false,
        Kind::Slot(_) => false,
        Kind::Reference(_) => false,
    }
}

/// Returns the kind of a row, by its key in any case and the argument of the key.
pub(crate) fn kind_of(key: &[u8], argument: &[u8]) -> Kind
    ensures { result ≡ kind_of key.now argument.now }
{
    if same_key(key, b"module") {
        return Kind::Module;
    }
    if same_key(key, b"endmodule") {
        return Kind::EndModule;
    }
    if same_key(key, b"preset") {
        return Kind::Preset;
    }
    match setting_named(key) {
        Some(setting) => Kind::Setting(setting),
        None => match special_kind(key, argument) {
            Some(kind) => kind,
            None => Kind::Left(group_named(key)),
        },
    }
}

/// Returns the largest number of a setting.
pub(crate) fn most_of(setting: Setting) -> u32
    ensures { result ≡ most_of setting }
{
    match setting {
        Setting::Ident => 65_535,
        Setting::Sync => 1,
        Setting::Freeze => 1,
        Setting::FailSafe => 1,
        Setting::MostParameters => 237,
        Setting::Modular => 1,
        Setting::Fixed => 1,
        Setting::MostModules => 255,
        Setting::MostInputs => 244,
        Setting::MostOutputs => 244,
        Setting::MostData => 488,
    }
}
