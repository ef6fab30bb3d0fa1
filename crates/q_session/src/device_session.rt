ghost use Rattle.std.specs.Prelude.{◌≡◌, ◌≤◌, ◌<◌, ◌+◌, ◌++◌, ◌^◌, Bool, suc, [], IfOk, IfErr, IsOk, OnOk, OnErr};
ghost use Rattle.std.specs.List.{flat_map};
ghost use Rattle.q_line.specs.Ranges.{IsSendable};
ghost use Rattle.q_model.specs.Tally.{totals};
ghost use Rattle.q_script_semantics.specs.Report as report;
ghost use Rattle.q_script_semantics.specs.Report.{answered, commanded, framed, numbered_packet, polls, show_text};
ghost use Rattle.q_script_semantics.specs.Text.{lost_line};
ghost use Rattle.q_script.specs.Lengths.{HasRoom, most_step};
ghost use Rattle.q_script.specs.Script.{fault_line};
ghost use Rattle.q_session.specs.Session.{opened, seen, IsShort};
ghost use Rattle.q_show.specs.Writes.{MayWrite, WriteFailed};
ghost use Rattle.q_show.specs.Written.{AppendsFront, HasPut, IsBuffered};

use crate::notes::{LineNote, Notes};
use crate::showing::put_show;
use crate::text::{put_device, put_fault, put_lost, put_poll, put_refusal};
use q_device::{Command, Device, Kind, Refusal, Settings};
use q_line::{Arrival, Line, Show, read_line};
use q_packet::{FlowHash, Head, Moment, OneAtATime, Packet};
use q_script::{Output, RunSettings, Session};
use q_show::{Target, WriteFault};
use q_words::LineFault;
use std::alloc::{AllocError, Global};
use std::io::Write;
use std::marker::Model;

/// What the lines of a script have made so far of a device. A contract sees it as the record `SessionSeen`, without its notes.
#[derive(Drop)]
pub struct DeviceSession {
    device: Device,
    /// The most bytes of a packet.
    mtu: u16,
    /// The time of the lines that follow.
    moment: Moment,
    /// How many packets were numbered.
    packets: u32,
    /// How many lines had a fault or were refused.
    not_done: u64,
    /// What the hash of a packet's key begins with, where its line gives none.
    seed: u32,
    /// What is noted of the lines.
    notes: Notes,
}

impl Model for DeviceSession {
    ghost use Rattle.q_session.specs.Session.{SessionSeen};
    ghost use Rattle.q_session.specs.Seen.{session_seen};
    ghost use Rattle.q_session.specs.SessionCode.{session_code};

    ghost Value = { SessionSeen };

    ghost coded = { session_code };

    ghost view = { session_seen };
}

impl DeviceSession {
    /// A session on a new device with these settings, which its recorder's length is one of.
    ///
    /// # Errors
    ///
    /// `AllocError` if the allocation of the recorder fails; never where it keeps no event.
    pub fn open(alloc: Global, settings: &RunSettings) -> Result<DeviceSession, AllocError>
        ensures new { IfOk result (λ session. session ≡ opened settings.now) }
        ensures succeeds { settings.now.recorder ≡ 0 → IsOk result }
    {
        settings.ranges();
        let device = Settings {
            mtu: settings.mtu(),
            txqueuelen: settings.txqueuelen(),
            recorder: settings.recorder(),
        };
        Ok(DeviceSession {
            device: Device::open(alloc, device)?,
            mtu: settings.mtu(),
            moment: Moment::zero(),
            packets: 0,
            not_done: 0,
            seed: settings.seed(),
            notes: Notes::counting(alloc),
        })
    }

    /// Takes what was noted of the lines, with how many were not done, and begins these notes. The session stays as it is.
    pub fn exchange_notes(&mut self, notes: &mut Notes)
        ensures same { self.new ≡ self.old }
        ensures not_done { notes.new ≡ self.old.state.not_done }
    {
        std::mem::swap(&mut self.notes, notes);
        notes.set_not_done(self.not_done);
    }

    /// Notes a line that was not done.
    fn note(&mut self, number: u64, line: &[u8], note: LineNote)
        ensures { self.new ≡ self.old }
    {
        self.notes.add(number, line, note);
    }

    /// Checks a line that was done, and gives a tbf this burst if it gives any, for what its writer may not want: a burst below the
    /// mtu, and a second name of the device.
    fn look_at(&mut self, number: u64, line: &[u8], burst: Option<u32>)
        ensures { self.new ≡ self.old }
    {
        let mtu = self.mtu;
        if burst.is_some_and(|burst| burst < u32::from(mtu)) {
            self.notes.add(number, line, LineNote::SmallBurst { mtu });
        }
        self.notes.look_at_device(number, line);
    }

    /// The device, when its script has ended.
    pub fn into_device(self) -> Device
        ensures { result.device ≡ self.state.device }
    {
        self.device
    }

    /// A packet arrives. It takes its number also if its allocation fails, which is returned.
    fn arrive(&mut self, number: u64, arrival: Arrival, output: &mut Output) -> Option<Refusal>
        requires few { self.old.state.packets + 1 < 2 ^ 32 }
        requires fewer { self.old.state.not_done < number }
        requires room { HasRoom output.old most_step }
        requires len { 1 ≤ arrival.len }
        requires prio { arrival.prio ≤ 15 }
        ensures { (starved : Bool)
            × (self.new ≡ (seen self.old (report.arrival totals self.old.seed starved number arrival self.old.state)).session)
            × (output.new ≡ output.old ++ (report.arrival totals self.old.seed starved number arrival self.old.state).text) }
    {
        self.packets += 1;
        let packet = self.numbered(arrival);
        if self.device.arrive(packet, self.moment).is_err() {
            self.not_done += 1;
            put_refusal(output, number, Refusal::Memory);
            return Some(Refusal::Memory);
        }
        None
    }

    /// The packet that arrives: its buffer has its number.
    fn numbered(&self, arrival: Arrival) -> Packet
        requires len { 1 ≤ arrival.len }
        requires prio { arrival.prio ≤ 15 }
        ensures { result ≡ numbered_packet self.now.seed self.now.state.packets arrival }
    {
        let hash = match arrival.hash {
            Some(hash) => hash,
            None => OneAtATime { seed: self.seed }.hash(&arrival.key),
        };
        Packet {
            key: arrival.key,
            number: u64::from(self.packets),
            port: 0,
            buf: self.packets,
            hash,
            len: arrival.len,
            prio: arrival.prio,
            ecn: arrival.ecn,
        }
    }

    /// So many polls. Each writes a line.
    fn poll<W: Write>(
        &mut self,
        count: u32,
        output: &mut Output,
        target: &mut Target<'_, W>,
    ) -> Result<(), WriteFault>
        requires { MayWrite target.old.writes }
        ensures packets { self.new.state.packets ≡ self.old.state.packets }
        ensures not_done { self.new.state.not_done ≡ self.old.state.not_done }
        ensures after { OnOk result (self.new ≡ (seen self.old (polls totals count self.old.state)).session) }
        ensures put { HasPut W.contents target.old target.new output.new (output.old ++ (polls totals count self.old.state).text) result }
    {
        for _ in 0..count {
            output.make_room(target)?;
            put_poll(output, self.device.poll(self.moment));
        }
        Ok(())
    }

    /// The command of a line, which the device does or refuses.
    pub fn command(&mut self, number: u64, line: &[u8], command: Command, output: &mut Output)
        requires fewer { self.old.state.not_done < number }
        requires room { HasRoom output.old most_step }
        ensures { (starved : Bool)
            × (self.new ≡ (seen self.old (commanded totals starved number command self.old.state)).session)
            × (output.new ≡ output.old ++ (commanded totals starved number command self.old.state).text) }
    {
        let burst = burst_of(&command);
        match self.run_command(number, command, output) {
            Some(refusal) => self.note(number, line, LineNote::Refusal(refusal)),
            None => self.look_at(number, line, burst),
        }
    }

    /// The same; the refusal is returned.
    fn run_command(&mut self, number: u64, command: Command, output: &mut Output) -> Option<Refusal>
        requires fewer { self.old.state.not_done < number }
        requires room { HasRoom output.old most_step }
        ensures { (starved : Bool)
            × (self.new ≡ (seen self.old (commanded totals starved number command self.old.state)).session)
            × (output.new ≡ output.old ++ (commanded totals starved number command self.old.state).text) }
    {
        if let Err(refusal) = self.device.command(command, self.moment) {
            self.not_done += 1;
            put_refusal(output, number, refusal);
            return Some(refusal);
        }
        None
    }

    /// The losses that wait, oldest first. Each writes a line.
    fn reap<W: Write>(
        &mut self,
        output: &mut Output,
        target: &mut Target<'_, W>,
    ) -> Result<(), WriteFault>
        requires { MayWrite target.old.writes }
        ensures packets { self.new.state.packets ≡ self.old.state.packets }
        ensures not_done { self.new.state.not_done ≡ self.old.state.not_done }
        ensures after { OnOk result (self.new ≡ record self.old { state = record self.old.state { waiting = [] } }) }
        ensures put { HasPut W.contents target.old target.new output.new (output.old ++ flat_map lost_line self.old.state.waiting) result }
    {
        while let Some(lost) = self.device.reap() {
            output.make_room(target)?;
            put_lost(output, &lost);
        }
        Ok(())
    }

    /// Each qdisc, class or filter, from the root down.
    pub fn show<W: Write>(
        &self,
        show: Show,
        output: &mut Output,
        target: &mut Target<'_, W>,
    ) -> Result<(), WriteFault>
        requires { MayWrite target.old.writes }
        ensures same_writer { target.new.writer.ghost_name ≡ target.old.writer.ghost_name }
        ensures ok { OnOk result (IsBuffered (W.contents target.old.writer.now) (W.contents target.new.writer.now) output.new
            (output.old ++ show_text totals show self.now.state.device)) }
        ensures err { OnErr result (AppendsFront (W.contents target.old.writer.now) (W.contents target.new.writer.now)
            (output.old ++ show_text totals show self.now.state.device)) }
        ensures going { OnOk result (MayWrite target.new.writes) }
        ensures failed { IfErr result (λ fault. WriteFailed target.new.writes fault.kind) }
    {
        put_show(self.device.tree(), show, output, target)
    }

    /// A line with a fault.
    pub fn fault(&mut self, number: u64, line: &[u8], fault: LineFault, output: &mut Output)
        requires fewer { self.old.state.not_done < number }
        requires room { HasRoom output.old most_step }
        ensures after { self.new ≡ record self.old { state = record self.old.state { not_done = suc self.old.state.not_done } } }
        ensures text { output.new ≡ output.old ++ fault_line number fault }
    {
        self.not_done += 1;
        put_fault(output, number, fault);
        self.note(number, line, LineNote::Fault(fault));
    }

    /// A line that writes one line at most. Its refusal is returned.
    fn answer(&mut self, number: u64, line: Line, output: &mut Output) -> Option<Refusal>
        requires few { self.old.state.packets + 1 < 2 ^ 32 }
        requires fewer { self.old.state.not_done < number }
        requires room { HasRoom output.old most_step }
        requires sendable { IsSendable line }
        requires short { IsShort line }
        ensures { (starved : Bool)
            × (self.new ≡ (seen self.old (answered totals self.old.seed starved number line self.old.state)).session)
            × (output.new ≡ output.old ++ (answered totals self.old.seed starved number line self.old.state).text) }
    {
        match line {
            Line::Pkt(arrival) => return self.arrive(number, arrival, output),
            Line::Frame { len, head } => return self.arrive(number, framed(len, head), output),
            Line::Tc(command) => return self.run_command(number, command, output),
            Line::At(moment) => self.moment = moment,
            Line::Totals => put_device(output, &self.device.totals()),
            Line::Blank | Line::Show(_) | Line::Poll(_) | Line::Reap => {}
        }
        None
    }
}

/// The burst that a line gives a tbf, in bytes.
fn burst_in(line: &Line) -> Option<u32> {
    match line {
        Line::Tc(command) => burst_of(command),
        _ => None,
    }
}

/// The burst that a command gives a tbf, in bytes.
fn burst_of(command: &Command) -> Option<u32> {
    match command {
        Command::QdiscAdd { kind, .. } | Command::QdiscChange { kind, .. } => match kind {
            Kind::Tbf { burst, .. } => Some(burst.bytes()),
            _ => None,
        },
        _ => None,
    }
}

/// The arrival of a frame, of which its head says all but the length.
fn framed(len: u16, head: Head) -> Arrival
    ensures { result ≡ framed len head }
{
    Arrival {
        len,
        key: head.key,
        prio: head.prio,
        ecn: head.ecn,
        hash: None,
    }
}

impl Session for DeviceSession {
    ghost use Rattle.q_session.specs.Session.{effect_of};

    ghost effect = { effect_of };

    ghost packets = { λ s. s.state.packets };

    ghost not_done = { λ s. s.state.not_done };

    #[inline(always)]
    fn run_line<W: Write>(
        &mut self,
        number: u64,
        line: &[u8],
        output: &mut Output,
        target: &mut Target<'_, W>,
    ) -> Result<(), WriteFault> {
        match read_line(line) {
            Ok(Line::Poll(count)) => self.poll(count, output, target),
            Ok(Line::Reap) => self.reap(output, target),
            Ok(Line::Show(show)) => self.show(show, output, target),
            Ok(read) => {
                output.make_room(target)?;
                let burst = burst_in(&read);
                match self.answer(number, read, output) {
                    Some(refusal) => self.note(number, line, LineNote::Refusal(refusal)),
                    None => self.look_at(number, line, burst),
                }
                Ok(())
            }
            Err(fault) => {
                output.make_room(target)?;
                self.fault(number, line, fault, output);
                Ok(())
            }
        }
    }

    fn not_done(&self) -> u64 {
        self.not_done
    }
}
