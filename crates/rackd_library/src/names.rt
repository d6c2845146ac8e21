//! Names for C.

ghost use Rattle.std.specs.Prelude.{◌≡◌, length};
ghost use Rattle.rackd_library.specs.Answers.{copied, copying_number};
ghost use Rattle.rackd_library.specs.Names.{name_of_rule, version_text};

use crate::text_out::copy_text;
use dp_line::Rule;

/// Copies the name of the rule of this number, and sets `count` to the number of its octets, 0 if no rule has this
/// number. Returns 0, or `SHORT_ROOM` if there is no room for the name.
#[unsafe(no_mangle)]
pub extern "C" fn rackd_rule_name(rule: u8, name: &mut [u8], count: &mut usize) -> u32
    ensures done { result ≡ copying_number (name_of_rule rule) name.old }
    ensures count { count.new ≡ length (name_of_rule rule) }
    ensures name { name.new ≡ copied (name_of_rule rule) name.old }
{
    copy_text(rule_name(rule).as_bytes(), name, count)
}

/// Returns the name of the rule of a number, empty if no rule has it.
fn rule_name(rule: u8) -> &'static str
    ensures { result.now ≡ name_of_rule rule }
{
    match Rule::from_code(rule) {
        Some(rule) => rule.name(),
        None => "",
    }
}

/// Copies the version of the library, and sets `count` to the number of its octets. Returns 0, or `SHORT_ROOM`.
#[unsafe(no_mangle)]
pub extern "C" fn rackd_version(version: &mut [u8], count: &mut usize) -> u32
    ensures done { result ≡ copying_number version_text version.old }
    ensures count { count.new ≡ length version_text }
    ensures version { version.new ≡ copied version_text version.old }
{
    copy_text(version_name().as_bytes(), version, count)
}

/// Returns the version of the library, that of rackd.
fn version_name() -> &'static str
    ensures { result.now ≡ version_text }
{
    "0.2.0"
}
