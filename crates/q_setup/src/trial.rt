//! The lines of a file are tried on a new device first.
ghost use Rattle.std.specs.Prelude.{◌≡◌, ◌≤◌, ◌<◌, ◌+◌, ◌++◌, ◌^◌, IfOk, OnOk, length};
ghost use Rattle.q_model.specs.Step.{step};
ghost use Rattle.q_model.specs.Tally.{totals};
ghost use Rattle.q_model.specs.declared.event.Event.TheVariants as event;
ghost use Rattle.q_script.specs.Script.{lines_of};
ghost use Rattle.q_setup.specs.Tried.{after_line, done_by, line_names, noted, tried, why_refused, why_undone, with_line, with_lines};
ghost use Rattle.q_setup.specs.Trying.{seen};

use crate::adding::add;
use crate::naming::names_chosen;
use q_device::Device;
use q_line::{Line, read_line};
use q_model::{Command, Refusal, Settings};
use q_packet::Moment;
use q_script::split_line;
use q_words::LineFault;
use std::alloc::{AllocError, Global};

/// What the lines of a file make of a new device.
#[derive(Drop)]
pub(crate) struct Trial {
    pub(crate) device: Device,
    /// How many lines were tried.
    pub(crate) lines: u64,
    /// Those that were not done.
    pub(crate) undone: Vec<Undone>,
    /// The commands of those that were.
    pub(crate) commands: Vec<Command>,
    /// Whether a line names a number that a device chooses.
    pub(crate) names_chosen: bool,
}

/// A line of a set-up file that is not done.
#[derive(Clone, Copy, PartialEq, Eq, Debug)]
pub struct Undone {
    /// Its number, from 1.
    pub line: u64,
    /// Why it is not done.
    pub why: Why,
}

/// Why a line of a set-up file is not done.
#[derive(Clone, Copy, PartialEq, Eq, Debug)]
pub enum Why {
    /// It is no line of the language.
    Fault(LineFault),
    /// A new device with the same settings, which has done the lines before it, refuses it.
    Refusal(Refusal),
    /// It is no line that changes a tree, as a packet, a poll or a show line.
    NoCommand,
}

/// Tries the lines of a file on a new device with these settings, which records nothing.
pub(crate) fn tried(
    alloc: Global,
    settings: Settings,
    text: &[u8],
    now: Moment,
) -> Result<Trial, AllocError>
    ensures { IfOk result (λ trial. seen trial ≡ tried settings text.now now) }
{
    let mut trial = Trial {
        device: Device::open(alloc, without_recorder(settings))?,
        lines: 0,
        undone: Vec::new(alloc),
        commands: Vec::new(alloc),
        names_chosen: false,
    };
    try_lines(&mut trial, text, now)?;
    Ok(trial)
}

fn without_recorder(settings: Settings) -> Settings
    ensures { result ≡ record settings { recorder = 0 } }
{
    settings.ranges();
    Settings {
        recorder: 0,
        ..settings
    }
}

fn try_lines(trial: &mut Trial, text: &[u8], now: Moment) -> Result<(), AllocError>
    requires { trial.old.lines + length text.now < 2 ^ 64 }
    ensures { OnOk result (seen trial.new ≡ with_lines now (seen trial.old) (lines_of text.now)) }
{
    let mut rest = text;
    while !rest.is_empty() {
        let (line, behind) = split_line(rest);
        try_line(trial, line, now)?;
        rest = behind;
    }
    Ok(())
}

fn try_line(trial: &mut Trial, line: &[u8], now: Moment) -> Result<(), AllocError>
    requires { trial.old.lines + 1 < 2 ^ 64 }
    ensures { OnOk result (seen trial.new ≡ with_line now (seen trial.old) line.now) }
{
    let read = read_line(line);
    let number = trial.lines + 1;
    let names = line_names(&read);
    let why = do_line(&mut trial.device, &read, now)?;
    note_done(&mut trial.commands, &read, &why)?;
    note(&mut trial.undone, number, why)?;
    trial.lines = number;
    trial.names_chosen = trial.names_chosen || names;
    Ok(())
}

fn line_names(read: &Result<Line, LineFault>) -> bool
    ensures { result ≡ line_names read.now }
{
    match read {
        Ok(Line::Tc(command)) => return names_chosen(command),
        Ok(_) => return false,
        Err(_) => return false,
    }
}

// Why the line is not done; `None` where it is.
fn do_line(
    device: &mut Device,
    read: &Result<Line, LineFault>,
    now: Moment,
) -> Result<Option<Why>, AllocError>
    ensures after { OnOk result (device.new.device ≡ after_line now read.now device.old.device) }
    ensures why { IfOk result (λ why. why ≡ why_undone now read.now device.old.device) }
{
    match read {
        Ok(Line::Tc(command)) => return do_command(device, *command, now),
        Ok(Line::Blank) => return Ok(None),
        Ok(_) => return Ok(Some(Why::NoCommand)),
        Err(fault) => return Ok(Some(Why::Fault(*fault))),
    }
}

// A command that is refused since an allocation failed tells nothing of its line.
fn do_command(device: &mut Device, command: Command, now: Moment) -> Result<Option<Why>, AllocError>
    ensures after { OnOk result (device.new.device ≡ (step totals device.old.device (event.Command command now)).device) }
    ensures why { IfOk result (λ why. why ≡ why_refused (step totals device.old.device (event.Command command now)).reply) }
{
    match device.command(command, now) {
        Ok(()) => return Ok(None),
        Err(Refusal::Memory) => return Err(AllocError),
        Err(refusal) => return Ok(Some(Why::Refusal(refusal))),
    }
}

fn note_done(
    commands: &mut Vec<Command>,
    read: &Result<Line, LineFault>,
    why: &Option<Why>,
) -> Result<(), AllocError>
    ensures { OnOk result (commands.new.items ≡ commands.old.items ++ done_by read.now why.now) }
{
    match (read, why) {
        (Ok(Line::Tc(command)), None) => add(commands, *command),
        _ => Ok(()),
    }
}

fn note(undone: &mut Vec<Undone>, line: u64, why: Option<Why>) -> Result<(), AllocError>
    ensures { OnOk result (undone.new.items ≡ undone.old.items ++ noted line why) }
{
    let Some(why) = why else {
        return Ok(());
    };
    undone.push(Undone { line, why })?;
    Ok(())
}
