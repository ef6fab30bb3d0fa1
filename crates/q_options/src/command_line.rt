ghost use Rattle.std.specs.Prelude.{◌≡◌, ◌≤◌, ◌⊎◌, IfOk, IfErr, IfSome, IsNone, IsOkAnd, Some, codes, pos, map, option_map, string_bytes, true, false};
ghost use Rattle.clap.specs.Words.{app_of, first_value, found_of, kind_of, new_app, one_text, rule_of, subcommand_of, subcommand_rows_of, with_rule, AddsArg, AddsSubcommand, NarrowsTo};
ghost use Rattle.q_options.specs.CommandLine.{HasBadDriveOption, HasBadOption, HasDriveOptionsOf, HasDriveSettingsOf, HasOptionsOf, HasPlayOptionsOf, IsAsked, IsAskedBy, IsBad, IsFlag, IsGiven, IsNotGood, IsNumber, IsRefused, IsUnreadable, Gives, bare_program, drive_app, file_rule, flag_rule, number_named, play_app, program, script_file, with_number};
ghost use Rattle.clap.specs.declared.Command.TheViews.{out-Command as fields_of};
ghost use Rattle.q_options.specs.CommandLine as spec;

use crate::drive_options::DriveOptions;
use crate::play_options::PlayOptions;
use crate::program_options::Options;
use clap::builder::ValueParser;
use clap::error::ErrorKind;
use clap::{Arg, ArgAction, ArgMatches, Command, Error, value_parser};
use q_drive::DriveSettings;
use q_script::RunSettings;
use std::alloc::{AllocError, Global};
use std::convert::AsStr;

/// The version of this program, the processor that it is compiled for, and the kit that it is proved with.
const VERSION: &str = "1.3.0 for x86_64, proved with rattle-kit-13f";

const PLAY_END: &str = "Example:
  printf 'tc qdisc add dev eth0 root pfifo limit 2\\npkt 1500\\npoll\\n' | qtree play

The lines of a script are described in docs/LANGUAGE.md and in the manual page qtree(1).";

const DRIVE_END: &str = "Example:
  qtree drive --senders 4 --count 1000 --len 100 --ring 16 </dev/null

tc's lines are described in docs/LANGUAGE.md and in the manual page qtree(1).";

/// Reads a command line, the program's name first. An error is clap's: it has the usage, the help or the version that it
/// prints.
pub fn options<S: AsStr>(alloc: Global, words: &[S]) -> Result<Options, Error>
    ensures asked { IfOk result (λ options. IsAsked (map S.text words.now) options) }
    ensures refused { IfErr result (λ error. IsRefused (map S.text words.now) (kind_of error)) }
{
    let mut qtree = qtree(alloc)?;
    asked(alloc, &mut qtree, words)
}

/// What the words ask of the program. It is lent the program, so that no way out has to drop it.
fn asked<'a, S: AsStr>(
    alloc: Global,
    qtree: &mut Command<'a>,
    words: &'a [S],
) -> Result<Options, Error>
    requires { app_of qtree.old ≡ program }
    ensures asked { IfOk result (λ options. IsAsked (map S.text words.now) options) }
    ensures refused { IfErr result (λ error. IsRefused (map S.text words.now) (kind_of error)) }
{
    match found(alloc, qtree, words)? {
        Some(options) => Ok(options),
        // clap has seen to the command, and to each number's range.
        None => Err(qtree.error(ErrorKind::ValueValidation, "an option is out of its range")?),
    }
}

/// The same, where clap finds no fault in the words; `None` where a text is no number, or one out of range.
fn found<'a, S: AsStr>(
    alloc: Global,
    qtree: &mut Command<'a>,
    words: &'a [S],
) -> Result<Option<Options>, Error>
    requires { app_of qtree.old ≡ program }
    ensures asked { IfOk result (λ found. IfSome found (IsAsked (map S.text words.now))) }
    ensures unreadable { IfOk result (λ found. IsNone found → IsUnreadable (subcommand_of program (map S.text words.now))) }
    ensures refused { IfErr result (λ error. IsRefused (map S.text words.now) (kind_of error)) }
{
    let matches = qtree.try_get_matches_from_mut(words)?;
    Ok(options_of(alloc, &matches)?)
}

/// The program: its commands, without which it shows its help.
fn qtree<'a>(alloc: Global) -> Result<Command<'a>, AllocError>
    ensures { IfOk result (λ command. app_of command ≡ program) }
{
    let qtree = with_subcommand(Ok(bare(alloc)), play(alloc));
    with_subcommand(qtree, drive(alloc))
}

/// The program without its commands.
fn bare<'a>(alloc: Global) -> Command<'a>
    ensures { app_of result ≡ bare_program }
{
    Command::new(alloc, "qtree")
        .about("A packet scheduler with the behaviour of Linux traffic control")
        .version(VERSION)
        .subcommand_required(true)
        .arg_required_else_help(true)
}

/// A command with a command of its own, where both could be made.
fn with_subcommand<'a>(
    command: Result<Command<'a>, AllocError>,
    sub: Result<Command<'a>, AllocError>,
) -> Result<Command<'a>, AllocError>
    ensures { IfOk result (λ r. IsOkAnd command.entry (λ c. IsOkAnd sub.entry (λ s. AddsSubcommand c s r))) }
{
    let sub = sub?;
    command?.subcommand(sub)
}

/// The command that runs a script.
fn play<'a>(alloc: Global) -> Result<Command<'a>, AllocError>
    ensures app { IfOk result (λ command. app_of command ≡ play_app) }
    ensures local { IfOk result (λ command. (fields_of command).has_globals ≡ false) }
{
    let play = Command::new(alloc, "play")
        .about(
            "Reads a script, of a file or of standard input, and writes its report on standard output",
        )
        .after_help(PLAY_END);
    let play = with_device(alloc, Ok(play));
    let play = with(play, explain_flag(alloc));
    with(play, file(alloc))
}

/// A command with an argument, where the command could be made. So one function leaves early, and not each step of a chain.
fn with<'a>(
    command: Result<Command<'a>, AllocError>,
    arg: Arg<'a>,
) -> Result<Command<'a>, AllocError>
    ensures { IfOk result (λ r. IsOkAnd command.entry (λ c. AddsArg c arg.entry r)) }
{
    command?.arg(arg)
}

/// An option without a value.
fn flag<'a>(alloc: Global, name: &'a str, help: &'a str) -> Arg<'a>
    ensures rule { rule_of result ≡ flag_rule name.entry.now }
    ensures local { result.global ≡ false }
{
    Arg::new(alloc, name)
        .long(name)
        .action(ArgAction::SetTrue)
        .help(help)
}

/// The option that asks for explanations.
fn explain_flag<'a>(alloc: Global) -> Arg<'a>
    ensures rule { rule_of result ≡ flag_rule (codes "explain") }
    ensures local { result.global ≡ false }
{
    let help = "Explain each line with a fault or a refusal on standard error";
    flag(alloc, "explain", help)
}

/// The file that has the script.
fn file<'a>(alloc: Global) -> Arg<'a>
    ensures rule { rule_of result ≡ file_rule }
    ensures local { result.global ≡ false }
{
    Arg::new(alloc, "file").value_name("FILE").help(
        "The file that has the script; standard input where none is named, or -",
    )
}

/// The command that lets senders run over a device.
fn drive<'a>(alloc: Global) -> Result<Command<'a>, AllocError>
    ensures app { IfOk result (λ command. app_of command ≡ drive_app) }
    ensures local { IfOk result (λ command. (fields_of command).has_globals ≡ false) }
{
    let drive = Command::new(alloc, "drive")
        .about("Sets up a device by tc's lines on standard input, and drives it from many threads")
        .after_help(DRIVE_END);
    let drive = with_load(alloc, Ok(drive));
    let help = "Go on until nothing goes any more, once the senders have ended";
    let drive = with(drive, flag(alloc, "until-idle", help));
    let help = "Show the counters of the device and of each qdisc at the end";
    let drive = with(drive, flag(alloc, "show", help));
    let drive = with_device(alloc, drive);
    with(drive, explain_flag(alloc))
}

/// A command with the options of its senders.
fn with_load<'a>(
    alloc: Global,
    command: Result<Command<'a>, AllocError>,
) -> Result<Command<'a>, AllocError>
    ensures { IfOk result (λ r. IsOkAnd command.entry (λ c. Gives spec.with_load c r)) }
{
    let range = value_parser!(u8).range(1..=64);
    let help = "Senders, from 1 to 64";
    let command = with_number(alloc, command, "senders", help, range, true);
    let range = value_parser!(u32).range(..=1_000_000);
    let help = "Packets of each sender, from 0 to 1000000";
    let command = with_number(alloc, command, "count", help, range, true);
    let range = value_parser!(u16).range(1..);
    let help = "Bytes of a packet, from 1 to 65535";
    let command = with_number(alloc, command, "len", help, range, true);
    let range = value_parser!(u32).range(1..=65_536);
    let help = "Places of each sender's ring, from 1 to 65536";
    with_number(alloc, command, "ring", help, range, true)
}

/// A command with the options of its device.
fn with_device<'a>(
    alloc: Global,
    command: Result<Command<'a>, AllocError>,
) -> Result<Command<'a>, AllocError>
    ensures { IfOk result (λ r. IsOkAnd command.entry (λ c. Gives spec.with_device c r)) }
{
    let range = value_parser!(u16).range(1..);
    let help = "Most bytes of a packet, from 1 to 65535 [default: 1514]";
    let command = with_number(alloc, command, "mtu", help, range, false);
    let any = value_parser!(u32);
    let help = "Packets that the root holds at first, from 0 to 4294967295 [default: 1000]";
    let command = with_number(alloc, command, "txqueuelen", help, any, false);
    let help = "Seed of the hash of flows, from 0 to 4294967295 [default: 0]";
    let command = with_number(alloc, command, "seed", help, any, false);
    let range = value_parser!(u32).range(..=1_000_000);
    let help = "Events that are recorded, from 0 to 1000000 [default: 4096]";
    with_number(alloc, command, "record", help, range, false)
}

/// A command with an option that has a number of this range.
fn with_number<'a>(
    alloc: Global,
    command: Result<Command<'a>, AllocError>,
    name: &'a str,
    help: &'a str,
    range: ValueParser<'a>,
    needed: bool,
) -> Result<Command<'a>, AllocError>
    ensures { IfOk result (λ r. IsOkAnd command.entry (λ c. Gives (with_number name.entry.now range.entry needed) c r)) }
{
    let number = number(alloc, name, help)
        .value_parser(range)
        .required(needed);
    with(command, number)
}

/// An option with a number.
fn number<'a>(alloc: Global, name: &'a str, help: &'a str) -> Arg<'a>
    ensures rule { rule_of result ≡ number_named name.entry.now }
    ensures local { result.global ≡ false }
{
    Arg::new(alloc, name).long(name).value_name("N").help(help)
}

/// What was asked for; `None` where a text is no number, or one out of range.
fn options_of(alloc: Global, matches: &ArgMatches) -> Result<Option<Options>, AllocError>
    ensures asked { IfOk result (λ found. IfSome found (IsAskedBy (subcommand_rows_of matches.now))) }
    ensures refused { IfOk result (λ found. IsNone found → IsUnreadable (subcommand_rows_of matches.now)) }
{
    if let Some(play) = matches.subcommand_matches("play") {
        return match play_options_of(alloc, play)? {
            Some(options) => Ok(Some(Options::Play(options))),
            None => Ok(None),
        };
    }
    let Some(drive) = matches.subcommand_matches("drive") else {
        return Ok(None);
    };
    match drive_options_of(drive) {
        Some(options) => Ok(Some(Options::Drive(options))),
        None => Ok(None),
    }
}

/// What was given to play; `None` where a text is no number, or one out of range.
fn play_options_of(alloc: Global, play: &ArgMatches) -> Result<Option<PlayOptions>, AllocError>
    ensures given { IfOk result (λ found. IfSome found (HasPlayOptionsOf (one_text (found_of play.now)) (first_value (found_of play.now)))) }
    ensures refused { IfOk result (λ found. IsNone found → HasBadOption (one_text (found_of play.now))) }
{
    let Some(settings) = settings_of(play) else {
        return Ok(None);
    };
    let file = file_of(alloc, play.get_str("file"))?;
    let explain = play.get_flag("explain");
    Ok(Some(PlayOptions {
        settings,
        file,
        explain,
    }))
}

/// The file that a word names, if it is not standard input, which `-` is too.
fn file_of(alloc: Global, word: Option<&str>) -> Result<Option<String>, AllocError>
    ensures { IfOk result (λ file. option_map string_bytes file ≡ script_file (option_map (λ w. w.now) word.entry)) }
{
    match word {
        Some(path) if path != "-" => Ok(Some(String::from_str(alloc, path)?)),
        _ => Ok(None),
    }
}

/// The options of a drive that were given; `None` where a text is no number, or one out of range, or is not there.
fn drive_options_of(drive: &ArgMatches) -> Option<DriveOptions>
    ensures given { IfSome result (HasDriveOptionsOf (one_text (found_of drive.now))) }
    ensures refused { IsNone result → HasBadDriveOption (one_text (found_of drive.now)) }
{
    let settings = drive_settings_of(drive)?;
    let explain = drive.get_flag("explain");
    Some(DriveOptions { settings, explain })
}

/// The settings of a drive that were given; `None` where a text is no number, or one out of range, or is not there.
fn drive_settings_of(drive: &ArgMatches) -> Option<DriveSettings>
    ensures given { IfSome result (HasDriveSettingsOf (one_text (found_of drive.now))) }
    ensures refused { IsNone result → HasBadDriveOption (one_text (found_of drive.now)) }
{
    let device = settings_of(drive)?;
    let senders = needed_of(drive, "senders")?;
    let count = needed_of(drive, "count")?;
    let len = needed_of(drive, "len")?;
    let ring = needed_of(drive, "ring")?;
    DriveSettings::new(
        device,
        u8::try_from(senders).ok()?,
        count,
        u16::try_from(len).ok()?,
        ring,
        drive.get_flag("until-idle"),
        drive.get_flag("show"),
    )
}

/// The settings of the device that were given, and the defaults of the others; `None` where a text is no number, or one out of
/// range.
fn settings_of(command: &ArgMatches) -> Option<RunSettings>
    ensures given { IfSome result (HasOptionsOf (one_text (found_of command.now))) }
    ensures refused { IsNone result → HasBadOption (one_text (found_of command.now)) }
{
    let defaults = RunSettings::defaults();
    let mtu = number_of(command, "mtu", u32::from(defaults.mtu()))?;
    let txqueuelen = number_of(command, "txqueuelen", defaults.txqueuelen())?;
    let seed = number_of(command, "seed", defaults.seed())?;
    let recorder = number_of(command, "record", defaults.recorder())?;
    RunSettings::new(u16::try_from(mtu).ok()?, txqueuelen, seed, recorder)
}

/// The number that an option was given, or its default; `None` where its text is no number.
fn number_of(command: &ArgMatches, name: &str, default: u32) -> Option<u32>
    ensures given { IfSome result (IsNumber (one_text (found_of command.now) name.now) default) }
    ensures refused { IsNone result → IsBad (one_text (found_of command.now) name.now) 0 4294967295 }
{
    match command.try_get_one(name) {
        Ok(Some(number)) => Some(number),
        Ok(None) => Some(default),
        Err(_) => None,
    }
}

/// The number that an option was given; `None` where it was not given, or its text is no number.
fn needed_of(command: &ArgMatches, name: &str) -> Option<u32>
    ensures given { IfSome result (IsGiven (one_text (found_of command.now) name.now)) }
    ensures refused { IsNone result → IsNotGood (one_text (found_of command.now) name.now) 0 4294967295 }
{
    match command.try_get_one(name) {
        Ok(number) => number,
        Err(_) => None,
    }
}
