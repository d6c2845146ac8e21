//! Words, arguments and options as data, and the forms of them that `clap` requires.

use crate::help::{self, Help};
use clap::builder::ValueParser;
use clap::{Arg, ArgAction, Command};
use std::alloc::{AllocError, Global};

/// A word of the command line, for example `run`.
#[derive(Clone, Copy)]
pub(crate) struct Word {
    /// The word itself.
    pub(crate) name: &'static str,
    /// What its `--help` prints.
    pub(crate) help: Help,
    /// Its arguments and options, in the order of its help.
    pub(crate) arguments: &'static [Argument],
}

/// An argument or an option of a word.
#[derive(Clone, Copy)]
pub(crate) struct Argument {
    /// The name by which its values are read. An option has it after `--`.
    pub(crate) name: &'static str,
    /// What the help of the word prints about it.
    pub(crate) help: &'static str,
    /// Whether it is an option.
    pub(crate) is_option: bool,
    /// Whether the word cannot do without it.
    pub(crate) is_required: bool,
    /// What each use of it does.
    pub(crate) action: ArgAction,
    /// The least number of values that one use takes.
    pub(crate) least: usize,
    /// The greatest number of values that one use takes.
    pub(crate) most: usize,
    /// The values of a use that has none.
    pub(crate) usual: &'static [&'static str],
    /// How help and messages name the values; if there are none here, by the name of the argument.
    pub(crate) shown: &'static [&'static str],
    /// What each value has to be.
    pub(crate) value: ValueParser<'static>,
    /// Whether help and messages leave out which values there are.
    pub(crate) hides_values: bool,
    /// The options that must be given with it.
    pub(crate) needs: &'static [&'static str],
    /// The options that must not be given with it.
    pub(crate) excludes: &'static [&'static str],
}

/// An argument that is required and has one value, any text.
pub(crate) const TEXT: Argument = Argument {
    name: "",
    help: "",
    is_option: false,
    is_required: true,
    action: ArgAction::Set,
    least: 1,
    most: 1,
    usual: &[],
    shown: &[],
    value: ValueParser::String,
    hides_values: false,
    needs: &[],
    excludes: &[],
};

/// An option with one value, any text.
pub(crate) const OPTION: Argument = Argument {
    is_option: true,
    is_required: false,
    ..TEXT
};

/// An option without a value.
pub(crate) const FLAG: Argument = Argument {
    action: ArgAction::SetTrue,
    least: 0,
    most: 0,
    value: ValueParser::Bool,
    ..OPTION
};

/// An option with a number, which has to be given a range.
pub(crate) const NUMBER: Argument = Argument {
    shown: &["N"],
    ..OPTION
};

/// Any number of one octet, for example an address.
pub(crate) const OCTET: ValueParser<'static> = ValueParser::Unsigned(0, 255);

/// The number of a port, 0 if the system chooses one.
pub(crate) const ANY_PORT: ValueParser<'static> = ValueParser::Unsigned(0, 65_535);

/// The number of a port that is there.
pub(crate) const USED_PORT: ValueParser<'static> = ValueParser::Unsigned(1, 65_535);

/// The name of the argument for a rack file.
pub(crate) const RACK: &str = "RACK";

/// The name of the argument for an audit text.
pub(crate) const AUDIT: &str = "AUDIT";

/// The argument for the file of a rack.
pub(crate) const RACK_FILE: Argument = Argument {
    name: RACK,
    help: help::RACK,
    ..TEXT
};

/// The argument for the files of an audit text, one or more.
pub(crate) const AUDIT_FILES: Argument = Argument {
    name: AUDIT,
    help: help::AUDIT,
    action: ArgAction::Append,
    most: usize::MAX,
    ..TEXT
};

/// Adds words.
pub(crate) fn with_words<'a>(
    alloc: Global,
    program: Command<'a>,
    words: &[&Word],
) -> Result<Command<'a>, AllocError> {
    let commands = commands_of(alloc, words)?;
    program.subcommands(commands)
}

/// Returns words in the form that `clap` requires.
fn commands_of<'a>(alloc: Global, words: &[&Word]) -> Result<Vec<Command<'a>>, AllocError> {
    let mut commands = Vec::new(alloc);
    for word in words {
        commands.push(command_of(alloc, word)?)?;
    }
    Ok(commands)
}

/// Returns a word in the form that `clap` requires.
pub(crate) fn command_of<'a>(alloc: Global, word: &Word) -> Result<Command<'a>, AllocError> {
    let args = args_of(alloc, word.arguments)?;
    with_help(Command::new(alloc, word.name), word.help).args(args)
}

/// Returns arguments and options in the form that `clap` requires.
fn args_of<'a>(alloc: Global, arguments: &[Argument]) -> Result<Vec<Arg<'a>>, AllocError> {
    let mut args = Vec::new(alloc);
    for argument in arguments {
        args.push(arg_of(alloc, argument)?)?;
    }
    Ok(args)
}

/// Adds the texts that `--help` prints.
pub(crate) fn with_help<'a>(command: Command<'a>, help: Help) -> Command<'a> {
    command
        .about(help.about)
        .override_usage(help.usage)
        .after_help(help.details)
}

/// Returns an argument or an option in the form that `clap` requires.
fn arg_of<'a>(alloc: Global, argument: &Argument) -> Result<Arg<'a>, AllocError> {
    with_values(named(alloc, argument), argument)
        .requires_all(argument.needs)?
        .conflicts_with_all(argument.excludes)
}

/// Returns an argument or an option with its name and its help.
fn named<'a>(alloc: Global, argument: &Argument) -> Arg<'a> {
    let arg = Arg::new(alloc, argument.name)
        .help(argument.help)
        .required(argument.is_required);
    if argument.is_option {
        arg.long(argument.name)
    } else {
        arg
    }
}

/// Adds which values an argument or an option takes.
fn with_values<'a>(arg: Arg<'a>, argument: &Argument) -> Arg<'a> {
    arg.action(argument.action)
        .num_args(argument.least..=argument.most)
        .default_missing_values(argument.usual)
        .value_names(argument.shown)
        .value_parser(argument.value)
        .hide_possible_values(argument.hides_values)
}
