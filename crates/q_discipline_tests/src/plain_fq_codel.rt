//! FQ-CoDel by plain lists, for the comparison in `twins`: a queue and a CoDel for each flow, and each list of flows
//! is looked through at each put.
use q_codel::{Codel, Fifo, Limit, Losses, Sink, Taken};
use q_fqcodel::Settings;
use q_packet::{Cause, Moment, Packet, Stamped};
use std::alloc::Global;
use std::collections::VecDeque;
use std::test::Fail;

/// A listed flow, and the bytes that it may still send.
#[derive(Clone, Copy, Debug)]
struct Entry {
    flow: u32,
    credits: i64,
}

/// The packets of a flow, and what CoDel knows of it.
#[derive(Drop)]
struct Flow {
    queue: Fifo,
    codel: Codel,
}

/// What `FqCodel` is, without its speed.
#[derive(Drop)]
pub struct PlainFqCodel {
    settings: Settings,
    flows: Vec<Flow>,
    new_flows: VecDeque<Entry>,
    old_flows: VecDeque<Entry>,
}

impl PlainFqCodel {
    pub fn new(alloc: Global, settings: Settings) -> Result<PlainFqCodel, Fail> {
        let mut flows = Vec::new(alloc);
        for _ in 0..settings.flows {
            let flow = Flow {
                queue: Fifo::new(alloc, Limit::Packets(u64::MAX)),
                codel: codel_of(settings),
            };
            if flows.push(flow).is_err() {
                return Err("memory".into());
            }
        }
        Ok(PlainFqCodel {
            settings,
            flows,
            new_flows: VecDeque::new(alloc),
            old_flows: VecDeque::new(alloc),
        })
    }

    /// Whether the packet that is put is itself lost.
    pub fn put(&mut self, packet: Packet, at: Moment, losses: &mut Losses) -> Result<bool, Fail> {
        let flows = self.settings.flows;
        let index = packet.hash.checked_rem(flows).ok_or("no flows")?;
        self.list(index)?;
        self.push(index, Stamped { packet, at })?;
        self.shed(index, losses)
    }

    // Lists a flow as new, where it is not listed.
    fn list(&mut self, flow: u32) -> Result<(), Fail> {
        if is_listed(&self.new_flows, flow) || is_listed(&self.old_flows, flow) {
            return Ok(());
        }
        let credits = i64::from(self.settings.quantum);
        self.new_flows.push_back(Entry { flow, credits })?;
        Ok(())
    }

    fn push(&mut self, flow: u32, stamped: Stamped) -> Result<(), Fail> {
        self.flow(flow)?.push(stamped)
    }

    // Loses a batch of the fattest flow, where there are more packets than the limit; whether this flow has lost all that it had.
    fn shed(&mut self, flow: u32, losses: &mut Losses) -> Result<bool, Fail> {
        let (packets, _) = self.queued();
        if packets <= u64::from(self.settings.limit) {
            return Ok(false);
        }
        let batch = u64::from(self.settings.drop_batch);
        let fat = self.fattest();
        let most = packets.saturating_sub(1).min(batch);
        let is_empty = self.flow(fat)?.lose_batch(most, losses)?;
        Ok(fat == flow && is_empty)
    }

    /// The next packet to send.
    pub fn take(&mut self, now: Moment, losses: &mut Losses) -> Result<Option<Taken>, Fail> {
        for _ in 0..u64::MAX {
            let is_new = !self.new_flows.is_empty();
            let Some(entry) = self.front(is_new) else {
                return Ok(None);
            };
            if let Some(taken) = self.turn(entry, is_new, now, losses)? {
                return Ok(Some(taken));
            }
        }
        Err("no end of turns".into())
    }

    // Takes the flow in front from its list.
    fn front(&mut self, is_new: bool) -> Option<Entry> {
        if is_new {
            self.new_flows.pop_front()
        } else {
            self.old_flows.pop_front()
        }
    }

    // What a flow sends in its turn: it has to have credits and a packet.
    fn turn(
        &mut self,
        entry: Entry,
        is_new: bool,
        now: Moment,
        losses: &mut Losses,
    ) -> Result<Option<Taken>, Fail> {
        if entry.credits <= 0 {
            self.grant(entry)?;
            return Ok(None);
        }
        let taken = self.flow(entry.flow)?.send(now, losses)?;
        match &taken {
            Some(taken) => self.pay(entry, is_new, taken.packet)?,
            None => self.pass(entry, is_new)?,
        }
        Ok(taken)
    }

    // A flow without a packet becomes old, where it was new, and else is in no list.
    fn pass(&mut self, entry: Entry, is_new: bool) -> Result<(), Fail> {
        if is_new {
            self.old_flows.push_back(entry)?;
        }
        Ok(())
    }

    // A flow gets a quantum, and goes to the end of the old ones.
    fn grant(&mut self, mut entry: Entry) -> Result<(), Fail> {
        let quantum = i64::from(self.settings.quantum);
        entry.credits = entry.credits.saturating_add(quantum);
        self.old_flows.push_back(entry)?;
        Ok(())
    }

    // A flow pays for a packet, and stays in front.
    fn pay(&mut self, mut entry: Entry, is_new: bool, packet: Packet) -> Result<(), Fail> {
        entry.credits = entry.credits.saturating_sub(i64::from(packet.len));
        if is_new {
            self.new_flows.push_front(entry)?;
        } else {
            self.old_flows.push_front(entry)?;
        }
        Ok(())
    }

    pub fn change(&mut self, settings: Settings) {
        self.settings = settings;
        for flow in self.flows.iter_mut() {
            flow.codel
                .set_params(settings.target, settings.interval, settings.ecn);
        }
    }

    pub fn purge(&mut self, losses: &mut Losses) -> Result<(), Fail> {
        let settings = self.settings;
        for flow in self.flows.iter_mut() {
            let held = flow.queue.count();
            losses.reserve(held as usize)?;
            flow.queue.purge(losses);
            flow.codel = codel_of(settings);
        }
        self.new_flows.clear();
        self.old_flows.clear();
        Ok(())
    }

    /// How many flows are listed as new, and how many as old.
    pub fn listed(&self) -> (usize, usize) {
        (self.new_flows.len(), self.old_flows.len())
    }

    /// The flow in that place of the old list, and its credits.
    pub fn old_flow(&self, place: usize) -> Option<(u32, i64)> {
        let entry = self.old_flows.get(place)?;
        Some((entry.flow, entry.credits))
    }

    /// The packets in all flows, and their bytes. Only listed flows have any.
    pub fn queued(&self) -> (u64, u64) {
        let (new, new_bytes) = self.queued_in(&self.new_flows);
        let (old, old_bytes) = self.queued_in(&self.old_flows);
        (new.saturating_add(old), new_bytes.saturating_add(old_bytes))
    }

    fn queued_in(&self, list: &VecDeque<Entry>) -> (u64, u64) {
        let mut packets = 0u64;
        let mut bytes = 0u64;
        for entry in list.iter() {
            if let Some(flow) = self.flows.get(entry.flow as usize) {
                packets = packets.saturating_add(flow.queue.count());
                bytes = bytes.saturating_add(flow.queue.bytes());
            }
        }
        (packets, bytes)
    }

    // The flow with the most bytes, of equals that with the lower index.
    fn fattest(&self) -> u32 {
        let fat = self.fattest_in(&self.new_flows, (0, 0));
        self.fattest_in(&self.old_flows, fat).0
    }

    // The same of a list, or a flow outside of it with its bytes where that is fatter.
    fn fattest_in(&self, list: &VecDeque<Entry>, (mut fat, mut most): (u32, u64)) -> (u32, u64) {
        for entry in list.iter() {
            if let Some(flow) = self.flows.get(entry.flow as usize) {
                let bytes = flow.queue.bytes();
                if bytes > most || (bytes == most && entry.flow < fat) {
                    fat = entry.flow;
                    most = bytes;
                }
            }
        }
        (fat, most)
    }

    fn flow(&mut self, index: u32) -> Result<&mut Flow, Fail> {
        Ok(self.flows.get_mut(index as usize).ok_or("a flow")?)
    }
}

impl Flow {
    fn push(&mut self, stamped: Stamped) -> Result<(), Fail> {
        self.queue.reserve()?;
        let packet = stamped.packet;
        if !self.queue.fits(packet.len) {
            return Err("a full queue".into());
        }
        self.queue.put(stamped);
        Ok(())
    }

    // Loses so many packets from the front.
    fn lose(&mut self, lost: u64, losses: &mut Losses) -> Result<(), Fail> {
        for _ in 0..lost {
            let stamped = self.queue.take().ok_or("a packet")?;
            losses.reserve(1)?;
            losses.lost(stamped.packet, Cause::FatFlow);
        }
        Ok(())
    }

    // Loses so many at most; whether that is all that it had.
    fn lose_batch(&mut self, most: u64, losses: &mut Losses) -> Result<bool, Fail> {
        let held = self.queue.count();
        let lost = held.min(most);
        self.lose(lost, losses)?;
        Ok(held == lost)
    }

    // The next packet by CoDel's law, which comes to rest where none is left.
    fn send(&mut self, now: Moment, losses: &mut Losses) -> Result<Option<Taken>, Fail> {
        let taken = self.take(now, losses)?;
        if taken.is_none() {
            self.codel.rest();
        }
        Ok(taken)
    }

    fn take(&mut self, now: Moment, losses: &mut Losses) -> Result<Option<Taken>, Fail> {
        if self.queue.count() == 0 {
            return Ok(None);
        }
        let count = self.queue.count();
        losses.reserve(count as usize)?;
        if count > losses.room() {
            return Err("room".into());
        }
        Ok(self.codel.take(&mut self.queue, now, losses))
    }
}

fn codel_of(settings: Settings) -> Codel {
    Codel::new(
        settings.target,
        settings.interval,
        settings.mtu,
        settings.ecn,
    )
}

fn is_listed(list: &VecDeque<Entry>, flow: u32) -> bool {
    for entry in list.iter() {
        if entry.flow == flow {
            return true;
        }
    }
    false
}
