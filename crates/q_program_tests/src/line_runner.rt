use crate::seen::Seen;
use q_device::{Command, Device, FlowHash, Moment, OneAtATime, Packet, Refusal, Settings};
use q_line::{Arrival, Line, read_line};
use std::alloc::Global;
use std::test::Fail;

/// A device on which the lines of a script are run one after the other.
#[derive(Drop)]
pub struct LineRunner {
    pub device: Device,
    moment: Moment,
    packets: u32,
}

impl LineRunner {
    /// A device with the default settings that records so many events, at the second try if an allocation fails.
    pub fn new(alloc: Global, recorded: u32) -> Result<LineRunner, Fail> {
        let settings = Settings::new(1514, 1000, recorded).ok_or("settings")?;
        let device = match Device::open(alloc, settings) {
            Ok(device) => device,
            Err(_) => Device::open(alloc, settings)?,
        };
        Ok(LineRunner {
            device,
            moment: Moment::zero(),
            packets: 0,
        })
    }

    /// Drops it: where else a device is dropped, each way on which that may happen takes long to prove.
    pub fn close(self) {}

    /// Runs the lines of a script. Those of these numbers are refused so, counted from 1, and the others are done.
    pub fn run(
        &mut self,
        alloc: Global,
        script: &[u8],
        refusals: &[(usize, Refusal)],
    ) -> Result<(), Fail> {
        let mut number = 0usize;
        for line in script.split(|byte| *byte == b'\n') {
            number = number.saturating_add(1);
            let refusal = self.line(alloc, line)?;
            if refusal != refusal_of(refusals, number) {
                return Err(Fail::new(format_args!("line {number}: {refusal:?}")));
            }
        }
        Ok(())
    }

    // Why a line is refused; `None` where it is done.
    fn line(&mut self, alloc: Global, line: &[u8]) -> Result<Option<Refusal>, Fail> {
        let Ok(line) = read_line(line) else {
            return Err(Fail::from("a line with a fault"));
        };
        match line {
            Line::Tc(command) => return self.command(alloc, &command),
            Line::Pkt(arrival) => self.arrive(alloc, arrival)?,
            Line::At(moment) => self.moment = moment,
            Line::Poll(count) => self.poll(count),
            Line::Reap => {
                let _lost = self.device.reap();
            }
            Line::Blank | Line::Show(_) | Line::Totals | Line::Frame { .. } => {}
        }
        Ok(None)
    }

    // Where a command is refused nothing has changed, and where memory was it is done with memory.
    fn command(&mut self, alloc: Global, command: &Command) -> Result<Option<Refusal>, Fail> {
        let before = Seen::of(alloc, &self.device)?;
        let Some(refusal) = self.refusal(command) else {
            return Ok(None);
        };
        self.assert_same(alloc, &before)?;
        if refusal != Refusal::Memory {
            return Ok(Some(refusal));
        }
        match self.refusal(command) {
            None => Ok(None),
            Some(_) => Err(Fail::from("refused with memory")),
        }
    }

    fn poll(&mut self, count: u32) {
        for _ in 0..count {
            let _polled = self.device.poll(self.moment);
        }
    }

    // Does a command; why it is refused, if it is.
    fn refusal(&mut self, command: &Command) -> Option<Refusal> {
        self.device.command(*command, self.moment).err()
    }

    // Where an allocation for a packet fails, nothing has changed, and it arrives with memory.
    fn arrive(&mut self, alloc: Global, arrival: Arrival) -> Result<(), Fail> {
        self.packets = self.packets.saturating_add(1);
        let packet = numbered(arrival, self.packets)?;
        let before = Seen::of(alloc, &self.device)?;
        if self.has_memory_for(packet) {
            return Ok(());
        }
        self.assert_same(alloc, &before)?;
        if self.has_memory_for(packet) {
            Ok(())
        } else {
            Err(Fail::from("refused with memory"))
        }
    }

    // Lets a packet arrive; whether no allocation failed for it.
    fn has_memory_for(&mut self, packet: Packet) -> bool {
        self.device.arrive(packet, self.moment).is_ok()
    }

    fn assert_same(&self, alloc: Global, before: &Seen) -> Result<(), Fail> {
        if Seen::of(alloc, &self.device)?.is_same(before) {
            Ok(())
        } else {
            Err(Fail::from("changed by a refused line"))
        }
    }
}

// The refusal of the line with this number.
fn refusal_of(refusals: &[(usize, Refusal)], number: usize) -> Option<Refusal> {
    for (line, refusal) in refusals {
        if *line == number {
            return Some(*refusal);
        }
    }
    None
}

// The packet of a line, with its number in the script.
fn numbered(arrival: Arrival, number: u32) -> Result<Packet, Fail> {
    let hash = match arrival.hash {
        Some(hash) => hash,
        None => OneAtATime { seed: 0 }.hash(&arrival.key),
    };
    let packet = Packet::new(
        number,
        u64::from(number),
        0,
        arrival.len,
        arrival.key,
        hash,
        arrival.prio,
        arrival.ecn,
    );
    Ok(packet.ok_or("a packet")?)
}
