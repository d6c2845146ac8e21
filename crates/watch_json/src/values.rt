//! The values of the JSON of a rack besides those of an entry: octets and lists of numbers.

ghost use Rattle.std.specs.Prelude.{◌≡◌, [], map, Some, option_map};
ghost use Rattle.std.specs.Fmt.{decimal, WritesOnOk};
ghost use Rattle.std.specs.List.{flat_map};
ghost use Rattle.explain_octets.specs.Words.{hex_pair};
ghost use Rattle.explain_texts.specs.JsonValues.{each_behind};
ghost use Rattle.watch_json.specs.Values.{list_json, numbers_json, octets_json};

use arrayvec::ArrayVec;
use dp_sap::MOST_LISTED;
use explain_octets::HexPair;
use std::fmt;

/// Octets in hex, without quotation marks.
#[derive(Clone, Copy)]
struct HexText<'a>(&'a [u8]);

impl<'a> fmt::Display for HexText<'a> {
    ghost output = { λ s. Some (flat_map hex_pair s.0.now) };

    fn fmt<W: fmt::Write>(&self, f: &mut fmt::Formatter<W>) -> fmt::Result {
        for octet in self.0 {
            let pair = HexPair(*octet);
            write!(f, "{pair}")?;
        }
        Ok(())
    }
}

/// Octets as a string of two hex digits each.
#[derive(Clone, Copy)]
pub(crate) struct Octets<'a>(pub(crate) &'a [u8]);

impl<'a> fmt::Display for Octets<'a> {
    ghost output = { λ s. Some (octets_json s.0.now) };

    #[tactic(auto, unfolding(crate::specs::Values::octets_json))]
    fn fmt<W: fmt::Write>(&self, f: &mut fmt::Formatter<W>) -> fmt::Result {
        let text = HexText(self.0);
        write!(f, "\"{text}\"")
    }
}

/// Numbers with commas between.
#[derive(Clone, Copy)]
struct EachNumber<'a>(&'a [u8]);

impl<'a> fmt::Display for EachNumber<'a> {
    ghost output = { λ s. Some (each_behind [] (map decimal s.0.now)) };

    fn fmt<W: fmt::Write>(&self, f: &mut fmt::Formatter<W>) -> fmt::Result {
        write_numbers(f, "", self.0)
    }
}

/// Writes these numbers, the first one after this separator.
fn write_numbers<W: fmt::Write>(
    f: &mut fmt::Formatter<W>,
    separator: &str,
    numbers: &[u8],
) -> fmt::Result
    ensures { WritesOnOk W.Write.write_str_gives f.old result (each_behind separator.now (map decimal numbers.now)) f.new }
{
    let [number, others @ ..] = numbers else {
        return Ok(());
    };
    write!(f, "{separator}{number}")?;
    write_numbers(f, ",", others)
}

/// Numbers as an array.
#[derive(Clone, Copy)]
pub(crate) struct Numbers<'a>(pub(crate) &'a [u8]);

impl<'a> fmt::Display for Numbers<'a> {
    ghost output = { λ s. Some (numbers_json s.0.now) };

    #[tactic(auto, unfolding(crate::specs::Values::numbers_json, explain_texts::specs::JsonValues::array_json))]
    fn fmt<W: fmt::Write>(&self, f: &mut fmt::Formatter<W>) -> fmt::Result {
        let numbers = EachNumber(self.0);
        write!(f, "[{numbers}]")
    }
}

/// The masters of a list as an array; `null` if there is no list.
#[derive(Clone, Copy)]
pub(crate) struct MasterList<'a>(pub(crate) &'a Option<ArrayVec<u8, MOST_LISTED>>);

impl<'a> fmt::Display for MasterList<'a> {
    ghost output = { λ s. Some (list_json (option_map (λ list. list.items) s.0.now)) };

    fn fmt<W: fmt::Write>(&self, f: &mut fmt::Formatter<W>) -> fmt::Result {
        match self.0 {
            None => f.write_str("null"),
            Some(masters) => {
                let masters = Numbers(masters.as_slice());
                write!(f, "{masters}")
            }
        }
    }
}

/// Returns an address as a number of JSON.
pub(crate) fn long(address: Option<u8>) -> Option<u64>
    ensures { result ≡ address }
{
    match address {
        Some(address) => Some(u64::from(address)),
        None => None,
    }
}
