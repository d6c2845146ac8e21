//! Reads the slaves of a rack file.

ghost use Rattle.std.specs.Prelude.{◌≡◌, ◌≤◌, map, length, codes, None};
ghost use Rattle.toml.specs.View.{view, table_view};
ghost use Rattle.dp_slave.specs.declared.description.Device.TheVariants.{Still};
ghost use Rattle.rack_file.specs.Gives.{Gives, reported, wrong};
ghost use Rattle.rack_file.specs.TomlKeys.{seen, required, optional, number_from, each_of, each_from};
ghost use Rattle.rack_file.specs.RackFile.{masters_of, configuration_of, configurations_of, device_named, device_of, list_of, slave_of, slave_at, slaves_of};

use crate::keys::slave_keys;
use crate::misread::{Cause, Misread, Place, Unread};
use crate::toml_keys::{
    array_in, at_key, counted, number_in, octets_in, only_keys, optional_flag, required_array,
    required_number, required_value, table_in, text_in, text_or_array_in, value_at,
};
use arrayvec::ArrayVec;
use dp_line::{Device, MOST_MASTERS, MOST_USER_PARAMETERS, SlaveSpec};
use dp_sap::{Lists, MOST_LISTED};
use dp_slave::{Configuration, MOST_CONFIGURATIONS};
use std::alloc::Global;
use toml::{Table, Value};

/// The largest number of user parameters that a slave takes, in octets, if its description doesn't say how many.
const USER_PARAMETERS: u8 = MOST_USER_PARAMETERS as u8;

/// Reads the addresses of masters, 0 to 255.
fn addresses_in(values: &[Value]) -> Result<ArrayVec<u8, MOST_MASTERS>, Cause>
    requires { length values.now ≤ 16 }
    ensures { seen (λ masters. masters.items) result ≡ each_of (number_from 0 255) (map view values.now) }
{
    let mut masters = ArrayVec::new();
    for value in values {
        masters.push(number_in(value, 0, 255)? as u8);
    }
    Ok(masters)
}

/// Reads an array of masters, at most 16.
#[tactic(auto, unfolding(crate::specs::RackFile::masters_of))]
pub(crate) fn masters_in(value: &Value) -> Result<ArrayVec<u8, MOST_MASTERS>, Cause>
    ensures { seen (λ masters. masters.items) result ≡ masters_of (view value.now) }
{
    addresses_in(counted(array_in(value)?, 0, MOST_MASTERS as u8)?)
}

/// Reads a configuration: at most 244 octets in hex text.
#[tactic(auto, unfolding(crate::specs::RackFile::configuration_of))]
fn configuration_in(alloc: Global, value: &Value) -> Result<Configuration, Unread>
    ensures { Gives wrong (λ cfg. cfg) result (configuration_of (view value.now)) }
{
    let octets = octets_in(alloc, value)?;
    match ArrayVec::try_from(octets.as_slice()) {
        Ok(cfg) => Ok(cfg),
        Err(_) => Err(Unread::Wrong(Cause::ManyOctets)),
    }
}

/// Reads a slave's configurations, in the order of the file: one as a text, or 1 to 4 of them as an array.
#[tactic(auto, unfolding(crate::specs::RackFile::configurations_of))]
fn configurations_in(
    alloc: Global,
    value: &Value,
) -> Result<ArrayVec<Configuration, MOST_CONFIGURATIONS>, Unread>
    ensures { Gives wrong (λ cfgs. cfgs.items) result (configurations_of (view value.now)) }
{
    let values = counted(text_or_array_in(value)?, 1, MOST_CONFIGURATIONS as u8)?;
    let mut cfgs = ArrayVec::new();
    for value in values {
        cfgs.push(configuration_in(alloc, value)?);
    }
    Ok(cfgs)
}

/// Reads a slave's configurations, which it must have.
#[tactic(auto, unfolding(crate::specs::TomlKeys::required))]
fn required_configurations<'a>(
    alloc: Global,
    place: Place,
    slave: &'a Table,
) -> Result<ArrayVec<Configuration, MOST_CONFIGURATIONS>, Misread<'a>>
    ensures { Gives reported (λ cfgs. cfgs.items) result (required configurations_of place (codes "cfg") (table_view slave.now)) }
{
    match configurations_in(alloc, required_value(place, slave, "cfg")?) {
        Ok(cfgs) => Ok(cfgs),
        Err(Unread::OutOfMemory) => Err(Misread::OutOfMemory),
        Err(Unread::Wrong(cause)) => Err(Misread::of_key(place, "cfg", cause)),
    }
}

/// Reads how many octets of user parameters a slave takes at most; 237 if the key is missing.
#[tactic(auto, unfolding(crate::specs::TomlKeys::optional))]
fn optional_user_parameters<'a>(place: Place, slave: &'a Table) -> Result<u8, Misread<'a>>
    ensures { result ≡ optional 237 (number_from 0 255) place (codes "user_max") (table_view slave.now) }
{
    match value_at(slave, "user_max") {
        Some(value) => Ok(at_key(place, "user_max", number_in(value, 0, 255))? as u8),
        None => Ok(USER_PARAMETERS),
    }
}

/// Returns the device with this name; `NoDevice` if there is none.
fn device_by_name(name: &str) -> Result<Device, Cause>
    ensures { result ≡ device_named name.now }
{
    if name == "still" {
        Ok(Device::Still)
    } else if name == "counter" {
        Ok(Device::Counter)
    } else if name == "mirror" {
        Ok(Device::Mirror)
    } else {
        Err(Cause::NoDevice)
    }
}

/// Reads a device by its name.
#[tactic(auto, unfolding(crate::specs::RackFile::device_of))]
fn device_in(value: &Value) -> Result<Device, Cause>
    ensures { result ≡ device_of (view value.now) }
{
    device_by_name(text_in(value)?)
}

/// Reads the device that updates a slave's inputs; still if the key is missing.
#[tactic(auto, unfolding(crate::specs::TomlKeys::optional))]
fn optional_device<'a>(place: Place, slave: &'a Table) -> Result<Device, Misread<'a>>
    ensures { result ≡ optional Still device_of place (codes "device") (table_view slave.now) }
{
    match value_at(slave, "device") {
        Some(value) => at_key(place, "device", device_in(value)),
        None => Ok(Device::Still),
    }
}

/// Reads a list of masters; an empty array is a list too.
#[tactic(auto, unfolding(crate::specs::RackFile::list_of))]
fn list_in(value: &Value) -> Result<Option<ArrayVec<u8, MOST_LISTED>>, Cause>
    ensures { result ≡ list_of (view value.now) }
{
    Ok(Some(masters_in(value)?))
}

/// Reads the list of masters at a key; None if the key is missing.
#[tactic(auto, unfolding(crate::specs::TomlKeys::optional))]
fn optional_list<'a>(
    place: Place,
    slave: &'a Table,
    key: &'a str,
) -> Result<Option<ArrayVec<u8, MOST_LISTED>>, Misread<'a>>
    ensures { result ≡ optional None list_of place key.now (table_view slave.now) }
{
    match value_at(slave, key) {
        Some(value) => at_key(place, key, list_in(value)),
        None => Ok(None),
    }
}

/// Reads the slave that the table in this place describes.
#[tactic(auto, unfolding(crate::specs::RackFile::slave_of))]
fn slave_in<'a>(alloc: Global, place: Place, slave: &'a Table) -> Result<SlaveSpec, Misread<'a>>
    ensures { Gives reported (λ slave. slave) result (slave_of place (table_view slave.now)) }
{
    only_keys(place, slave, slave_keys())?;
    Ok(SlaveSpec {
        address: required_number(place, slave, "address", 255)? as u8,
        ident: required_number(place, slave, "ident", 65_535)? as u16,
        cfgs: required_configurations(alloc, place, slave)?,
        sync: optional_flag(place, slave, "sync")?,
        freeze: optional_flag(place, slave, "freeze")?,
        user_max: optional_user_parameters(place, slave)?,
        device: optional_device(place, slave)?,
        lists: Lists {
            lockers: optional_list(place, slave, "lockers")?,
            readers: optional_list(place, slave, "readers")?,
        },
        failsafe: optional_flag(place, slave, "failsafe")?,
    })
}

/// Reads the slave that an element of `slave` describes, at this position among those of the line at this position.
#[tactic(auto, unfolding(crate::specs::RackFile::slave_at))]
fn slave_at<'a>(
    alloc: Global,
    line: u8,
    position: usize,
    value: &'a Value,
) -> Result<SlaveSpec, Misread<'a>>
    ensures { Gives reported (λ slave. slave) result (slave_at line position (view value.now)) }
{
    let slave = at_key(Place::Line(line), "slave", table_in(value))?;
    slave_in(alloc, Place::Slave(line, position), slave)
}

/// Reads the slaves of the line at this position.
fn slaves_in<'a>(
    alloc: Global,
    line: u8,
    values: &'a [Value],
) -> Result<Vec<SlaveSpec>, Misread<'a>>
    ensures { Gives reported (λ slaves. slaves.items) result (each_from (slave_at line) 1 (map view values.now)) }
{
    let mut slaves = Vec::new(alloc);
    for (index, value) in values.iter().enumerate() {
        let slave = slave_at(alloc, line, index + 1, value)?;
        slaves.push(slave).map_err(|_| Misread::OutOfMemory)?;
    }
    Ok(slaves)
}

/// Reads the slaves at the key `slave` of the line at this position.
#[tactic(auto, unfolding(crate::specs::RackFile::slaves_of))]
pub(crate) fn required_slaves<'a>(
    alloc: Global,
    position: u8,
    line: &'a Table,
) -> Result<Vec<SlaveSpec>, Misread<'a>>
    ensures { Gives reported (λ slaves. slaves.items) result (slaves_of position (table_view line.now)) }
{
    let values = required_array(Place::Line(position), line, "slave")?;
    slaves_in(alloc, position, values)
}
