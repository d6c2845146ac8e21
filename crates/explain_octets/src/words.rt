//! The parts that the texts of octets and bits are made of.

ghost use Rattle.std.specs.Prelude.{◌≡◌, ◌<◌, Some};
ghost use Rattle.std.specs.Fmt.{WritesOnOk};
ghost use Rattle.dp_telegram.specs.FunctionCode.{is_set as is_set_of};
ghost use Rattle.explain_octets.specs.PrivateWords.{names_behind};
ghost use Rattle.explain_octets.specs.Words.{capital_pair, groups_text, groups_word, hex_pair, hex_text, ident_text, is_one_group, listed};

use std::fmt;
use std::marker::Model;

/// An octet as two hex digits in lower case.
#[derive(Clone, Copy)]
pub struct HexPair(pub u8);

impl fmt::Display for HexPair {
    ghost output = { λ octet. Some (hex_pair octet.0) };

    fn fmt<W: fmt::Write>(&self, f: &mut fmt::Formatter<W>) -> fmt::Result {
        let octet = self.0;
        write!(f, "{octet:02x}")
    }
}

/// An octet as two hex digits in capitals.
#[derive(Clone, Copy)]
pub struct CapitalPair(pub u8);

impl fmt::Display for CapitalPair {
    ghost output = { λ octet. Some (capital_pair octet.0) };

    fn fmt<W: fmt::Write>(&self, f: &mut fmt::Formatter<W>) -> fmt::Result {
        let octet = self.0;
        write!(f, "{octet:02X}")
    }
}

/// Octets as pairs of hex digits, separated by spaces.
#[derive(Drop)]
pub struct Hex<'a>(pub &'a [u8]);

impl<'a> fmt::Display for Hex<'a> {
    ghost output = { λ octets. Some (hex_text octets.0.now) };

    fn fmt<W: fmt::Write>(&self, f: &mut fmt::Formatter<W>) -> fmt::Result {
        if let [first, others @ ..] = self.0 {
            let first = HexPair(*first);
            write!(f, "{first}")?;
            for octet in others {
                let octet = HexPair(*octet);
                write!(f, " {octet}")?;
            }
        }
        Ok(())
    }
}

/// An ident number by its two octets, high octet first.
#[derive(Clone, Copy)]
pub(crate) struct Ident(pub(crate) u8, pub(crate) u8);

impl fmt::Display for Ident {
    ghost output = { λ ident. Some (ident_text ident.0 ident.1) };

    fn fmt<W: fmt::Write>(&self, f: &mut fmt::Formatter<W>) -> fmt::Result {
        let high = CapitalPair(self.0);
        let low = CapitalPair(self.1);
        write!(f, "ident {high}{low}")
    }
}

/// Returns whether the bit of this number is 1; bit 0 is the lowest.
pub(crate) const fn is_set(number: u32, octet: u8) -> bool
    requires { number < 8 }
    ensures { result ≡ is_set_of number octet }
{
    octet >> number & 1 == 1
}

/// A name that is written only if its flag is set.
#[derive(Drop)]
pub struct Flag {
    is_set: bool,
    name: &'static str,
}

impl Model for Flag {
    ghost use Rattle.std.specs.Prelude.{ℕ, Bool, List};

    ghost Value = { Bool × List ℕ };

    ghost view = { λ flag. (flag.is_set, flag.name.now) };
}

impl Flag {
    /// Returns a flag with this name.
    pub fn new(is_set: bool, name: &'static str) -> Flag
        ensures { result ≡ (is_set, name.entry.now) }
    {
        Flag { is_set, name }
    }

    /// Returns a flag with this name that is set if the bit of this number of the octet is 1.
    pub(crate) fn of_bit(number: u32, octet: u8, name: &'static str) -> Flag
        requires { number < 8 }
        ensures { result ≡ (is_set_of number octet, name.entry.now) }
    {
        Flag::new(is_set(number, octet), name)
    }
}

/// The names of the flags that are set, and a text after them; another text if none is set.
#[derive(Drop)]
pub struct Names<'a> {
    pub flags: &'a [Flag],
    /// The text if none is set.
    pub none: &'static str,
    /// The text after the names.
    pub behind: &'static str,
}

impl<'a> fmt::Display for Names<'a> {
    ghost output = { λ names. Some (listed names.none.now names.behind.now names.flags.now) };

    #[tactic(auto, using(crate::proofs::Naming::names_are_listed))]
    fn fmt<W: fmt::Write>(&self, f: &mut fmt::Formatter<W>) -> fmt::Result {
        write_names(f, self.flags, "", self.none, self.behind)
    }
}

/// Writes the names of the flags that are set, the first one after this separator, and then `behind`. If none is set,
/// writes `none` instead.
fn write_names<W: fmt::Write>(
    f: &mut fmt::Formatter<W>,
    flags: &[Flag],
    separator: &str,
    none: &str,
    behind: &str,
) -> fmt::Result
    ensures { WritesOnOk W.Write.write_str_gives f.old result (names_behind separator.now none.now behind.now flags.now) f.new }
{
    let [flag, others @ ..] = flags else {
        return f.write_str(none);
    };
    if !flag.is_set {
        return write_names(f, others, separator, none, behind);
    }
    let name = flag.name;
    write!(f, "{separator}{name}")?;
    write_names(f, others, ", ", behind, behind)
}

/// The groups of an octet, one for each bit that is set; another text if none is set.
#[derive(Drop)]
pub struct Groups {
    pub octet: u8,
    /// The text if no group is set.
    pub none: &'static str,
}

impl fmt::Display for Groups {
    ghost output = { λ groups. Some (groups_text groups.none.now groups.octet) };

    #[tactic(auto, unfolding(crate::specs::Words::groups_text))]
    fn fmt<W: fmt::Write>(&self, f: &mut fmt::Formatter<W>) -> fmt::Result {
        if self.octet == 0 {
            return f.write_str(self.none);
        }
        let flags = [
            Flag::of_bit(0, self.octet, "1"),
            Flag::of_bit(1, self.octet, "2"),
            Flag::of_bit(2, self.octet, "3"),
            Flag::of_bit(3, self.octet, "4"),
            Flag::of_bit(4, self.octet, "5"),
            Flag::of_bit(5, self.octet, "6"),
            Flag::of_bit(6, self.octet, "7"),
            Flag::of_bit(7, self.octet, "8"),
        ];
        let names = Names {
            flags: &flags,
            none: "",
            behind: "",
        };
        let word = groups_word(self.octet);
        write!(f, "{word}{names}")
    }
}

/// Returns the word before the groups of an octet that has some.
fn groups_word(octet: u8) -> &'static str
    ensures { result.now ≡ groups_word octet }
{
    if is_one_group(octet) {
        "group "
    } else {
        "groups "
    }
}

/// Returns whether exactly one bit is set.
#[tactic(auto, unfolding(crate::specs::Words::is_one_group))]
fn is_one_group(octet: u8) -> bool
    ensures { result ≡ is_one_group octet }
{
    octet == 1
        || octet == 2
        || octet == 4
        || octet == 8
        || octet == 16
        || octet == 32
        || octet == 64
        || octet == 128
}
