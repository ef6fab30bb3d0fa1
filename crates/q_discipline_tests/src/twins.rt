//! fq_codel beside plain lists: each call is made on both, and fails where they answer differently or lose other packets.
use crate::plain_fq_codel::PlainFqCodel;
use q_codel::{Loss, Losses, Taken};
use q_fqcodel::{FqCodel, Settings};
use q_packet::{Moment, Packet};
use std::alloc::Global;
use std::test::Fail;

/// Both bodies, with what each has lost.
#[derive(Drop)]
pub struct Twins {
    fast: FqCodel,
    plain: PlainFqCodel,
    lost: Losses,
    plain_lost: Losses,
}

fn same(is_same: bool, what: &'static str) -> Result<(), Fail> {
    if is_same {
        Ok(())
    } else {
        Err(Fail::from(what))
    }
}

// No function here has an `ensures`, so that no test works out what is queued.
impl Twins {
    pub fn new(alloc: Global, settings: Settings) -> Result<Twins, Fail> {
        let plain = PlainFqCodel::new(alloc, settings)?;
        let fast = FqCodel::new(alloc, settings)?;
        Ok(Twins::of(alloc, fast, plain))
    }

    fn of(alloc: Global, fast: FqCodel, plain: PlainFqCodel) -> Twins {
        Twins {
            fast,
            plain,
            lost: Losses::new(alloc),
            plain_lost: Losses::new(alloc),
        }
    }

    /// Whether the packet that is put is itself lost.
    pub fn put(&mut self, packet: Packet, now: Moment) -> Result<bool, Fail> {
        let is_lost = self.put_fast(packet, now)?;
        let is_lost_plainly = self.plain.put(packet, now, &mut self.plain_lost)?;
        same(is_lost_plainly == is_lost, "a put differs")?;
        Ok(is_lost)
    }

    fn put_fast(&mut self, packet: Packet, now: Moment) -> Result<bool, Fail> {
        self.fast.reserve()?;
        let settings = self.fast.settings();
        self.lost.reserve(settings.drop_batch as usize)?;
        Ok(self.fast.put(packet, now, &mut self.lost))
    }

    pub fn take(&mut self, now: Moment) -> Result<Option<Taken>, Fail> {
        let taken = self.take_fast(now)?;
        let taken_plainly = self.plain.take(now, &mut self.plain_lost)?;
        same(taken_plainly == taken, "a take differs")?;
        Ok(taken)
    }

    fn take_fast(&mut self, now: Moment) -> Result<Option<Taken>, Fail> {
        let (packets, _) = self.fast.queued();
        self.lost.reserve(packets as usize)?;
        Ok(self.fast.take(now, &mut self.lost))
    }

    pub fn settings(&self) -> Settings {
        self.fast.settings()
    }

    /// Settings with as many flows and the same mtu from then on.
    pub fn change(&mut self, settings: Settings) -> Result<(), Fail> {
        let now = self.fast.settings();
        if settings.flows != now.flows || settings.mtu != now.mtu {
            return Err("other flows".into());
        }
        self.fast.change(settings);
        self.plain.change(settings);
        Ok(())
    }

    pub fn purge(&mut self) -> Result<(), Fail> {
        let (packets, _) = self.fast.queued();
        self.lost.reserve(packets as usize)?;
        self.fast.purge(&mut self.lost);
        self.plain.purge(&mut self.plain_lost)
    }

    /// The packets in all flows, and their bytes.
    pub fn queued(&self) -> Result<(u64, u64), Fail> {
        let queued = self.fast.queued();
        same(self.plain.queued() == queued, "what is queued differs")?;
        Ok(queued)
    }

    /// How many flows are listed as new, and how many as old.
    pub fn listed(&self) -> Result<(usize, usize), Fail> {
        let listed = self.fast.listed();
        same(self.plain.listed() == listed, "what is listed differs")?;
        Ok(listed)
    }

    /// The flow in that place of the old list, and its credits, which the plain lists alone show.
    pub fn old_flow(&self, place: usize) -> Option<(u32, i64)> {
        self.plain.old_flow(place)
    }

    /// The loss that waits longest.
    pub fn reap(&mut self) -> Result<Option<Loss>, Fail> {
        let loss = self.lost.reap();
        same(self.plain_lost.reap() == loss, "a loss differs")?;
        Ok(loss)
    }

    /// How many losses wait.
    pub fn losses(&self) -> Result<u64, Fail> {
        let count = self.lost.count();
        same(self.plain_lost.count() == count, "the losses differ")?;
        Ok(count)
    }
}
