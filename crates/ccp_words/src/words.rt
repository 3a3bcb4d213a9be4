//! How the command line's words are read: the mode, and each option with its range and default.
ghost use Rattle.std.specs.Prelude.{◌≡◌, ◌≢◌, true, false, Some, IfOk, OnOk, IfErr, IfSome, option_map, map, string_bytes};
ghost use Rattle.ccp_base.specs.Outside.{no_memory};
ghost use Rattle.clap.specs.Words.{app_of, rule_of, found_of, one_text};
ghost use Rattle.ccp_words.specs.Matches.{HasOptions, ReadsNumber, SaysMode, is_flag_text};
ghost use Rattle.ccp_words.specs.Words.{HasWorkers, IsCommandLine, are_accepted, asked_in, bare_command, mode_argument, number_option, wire_flag};

use crate::mode::{ToolMode, names};
use ccp_base::NoMemory;
use clap::builder::ValueParser;
use clap::error::ErrorKind;
use clap::{Arg, ArgAction, ArgMatches, Command};
use std::alloc::{AllocError, Global};

/// The most workers of a kind.
const WORKERS: u64 = 32;

/// Why words ask for nothing.
#[derive(Clone, Copy)]
pub enum Unasked {
    /// They aren't accepted.
    Refused,
    NoMemory(NoMemory),
}

impl From<AllocError> for Unasked {
    ghost use Rattle.std.specs.Prelude.{◌≡◌};
    ghost use Rattle.ccp_words.specs.declared.words.Unasked.TheVariants as unasked;

    ghost from_gives = { λ _ e. e ≡ unasked.NoMemory no_memory };

    fn from(error: AllocError) -> Unasked {
        Unasked::NoMemory(NoMemory::from(error))
    }
}

/// What accepted words ask for: the mode, and the options of all modes, each with its default if it isn't given.
#[derive(Clone, Copy)]
pub struct Asked {
    pub mode: ToolMode,
    /// Datapath workers, 1 to 32.
    pub datapaths: u32,
    /// Agent workers, or installers, 1 to 32.
    pub agents: u32,
    /// Workers on cases or flows, 1 to 32.
    pub workers: u32,
    /// The number of a generated campaign.
    pub number: u32,
    /// Whether the programs' Install frames are shown.
    pub wire: bool,
}

/// What the words ask for, the program's name first.
pub fn read_words(alloc: Global, words: &[String]) -> Result<Asked, Unasked>
    ensures accepted { OnOk result (are_accepted (map string_bytes words.now) ≡ true) }
    ensures asked { IfOk result (λ asked. asked_in (map string_bytes words.now) ≡ Some asked) }
    ensures workers { IfOk result HasWorkers }
    ensures err { IfErr result (λ e. e ≢ Unasked.NoMemory no_memory → are_accepted (map string_bytes words.now) ≡ false) }
{
    match command(alloc)?.try_get_matches_from(words) {
        Ok(matches) => read_matches(&matches).ok_or(Unasked::Refused),
        Err(error) => match error.kind() {
            // by this kind clap reports a refused growth
            ErrorKind::OutOfMemory => Err(Unasked::from(AllocError)),
            _ => Err(Unasked::Refused),
        },
    }
}

/// What matches of the command line say, none if they have no mode.
fn read_matches(matches: &ArgMatches) -> Option<Asked>
    ensures mode { SaysMode (found_of matches.now) (option_map (λ asked. asked.mode) result) }
    ensures options { IfSome result (HasOptions (found_of matches.now)) }
{
    let mode = read_mode(matches)?;
    Some(Asked {
        mode,
        datapaths: read_number(matches, "datapaths"),
        agents: read_number(matches, "agents"),
        workers: read_number(matches, "workers"),
        number: read_number(matches, "number"),
        wire: read_flag(matches, "wire"),
    })
}

// A function of its own: its clause says of the Option what its caller's says, so the `?` there closes.
fn read_mode(matches: &ArgMatches) -> Option<ToolMode>
    ensures { SaysMode (found_of matches.now) result }
{
    matches.get_one::<ToolMode>("mode")
}

/// The number that an option was given, or its default.
fn read_number(matches: &ArgMatches, name: &str) -> u32
    ensures { ReadsNumber (one_text (found_of matches.now) name.now) result }
{
    matches.get_one::<u32>(name).unwrap_or(1)
}

/// Whether a flag was given.
fn read_flag(matches: &ArgMatches, name: &str) -> bool
    ensures { result ≡ is_flag_text (one_text (found_of matches.now) name.now) }
{
    matches.get_one::<bool>(name).unwrap_or(false)
}

// Each argument is made where it is added: one that is made before would be dropped at each exit between.
/// The command line: the mode, and the options of all modes.
fn command<'a>(alloc: Global) -> Result<Command<'a>, AllocError>
    ensures { IfOk result IsCommandLine }
{
    bare_command(alloc)
        .arg(mode_argument(alloc, names()))?
        .arg(number_option(alloc, "datapaths", 1, WORKERS))?
        .arg(number_option(alloc, "agents", 1, WORKERS))?
        .arg(number_option(alloc, "workers", 1, WORKERS))?
        .arg(number_option(alloc, "number", 0, 4_294_967_295))?
        .arg(wire_flag(alloc))
}

/// The command line before its arguments, without flags for help and the version.
fn bare_command<'a>(alloc: Global) -> Command<'a>
    ensures { app_of result ≡ bare_command }
{
    Command::new(alloc, "ccp")
        .disable_help_flag(true)
        .disable_version_flag(true)
}

/// The positional argument, which is needed and is one of these names.
fn mode_argument<'a>(alloc: Global, names: &'a [&'a str]) -> Arg<'a>
    ensures rule { rule_of result ≡ mode_argument names.entry }
    ensures own { result.global ≡ false }
{
    Arg::new(alloc, "mode")
        .action(ArgAction::Set)
        .value_parser(ValueParser::Names(names))
        .required(true)
}

/// An option whose value is a whole number from `least` to `most`, and 1 if it isn't given.
fn number_option<'a>(alloc: Global, name: &'a str, least: u64, most: u64) -> Arg<'a>
    ensures rule { rule_of result ≡ number_option name.entry.now least most }
    ensures own { result.global ≡ false }
{
    Arg::new(alloc, name)
        .long(name)
        .action(ArgAction::Set)
        .value_parser(ValueParser::unsigned(least, most))
        .default_value("1")
}

/// The flag that shows the programs' Install frames.
fn wire_flag<'a>(alloc: Global) -> Arg<'a>
    ensures rule { rule_of result ≡ wire_flag }
    ensures own { result.global ≡ false }
{
    Arg::new(alloc, "wire")
        .long("wire")
        .action(ArgAction::SetTrue)
}
