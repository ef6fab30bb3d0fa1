//! Bursts of packets that fifos keep or give: what each call asks is asked once.
ghost use Rattle.std.specs.Prelude.{◌≡◌, ◌≤◌, ◌<◌, ◌+◌, ◌-◌, ◌*◌, ◌/◌, ◌^◌, All, IfSome, length, max, min, replicate, slice_get, take};
ghost use Rattle.q_packet.specs.Stored.{IsStored, descriptor};
ghost use Rattle.q_codel.specs.Bursts.{IsShort};
ghost use Rattle.q_model.specs.Beneath.{beneath};
ghost use Rattle.q_model.specs.declared.fate.Fate.TheVariants.{Kept};
ghost use Rattle.q_tree.specs.arrival.KeepSteps.{CanBeKeptBelow};
ghost use Rattle.q_tree.specs.Bursts.{room_at};
ghost use Rattle.q_tree.specs.departure.GiveSteps.{CanGive, IsNoFifo};
ghost use Rattle.q_tree.specs.departure.PopSteps.{HasHead};
ghost use Rattle.q_device.specs.device.Bursts.{IsPolledFirst, arrived_by, budget_at, fates_by};
ghost use Rattle.q_device.specs.device.DeviceSeen.{longest};
ghost use Rattle.q_device.specs.device.Room.{KeepsPlaces};
ghost use Rattle.q_device.specs.Events.{with_memory};

use super::{budget, later, moment_range};
use crate::device::Device;
use crate::log::recording::has_room;
use q_codel::{Losses, Told};
use q_model::{Event, Settings};
use q_packet::{Moment, StoredPacket};
use q_tree::Tree;

impl Device {
    /// The first of these packets arrive that are kept with nothing lost and no place made. Returns how many: all for which the device has room,
    /// to the first that is not kept so.
    #[inline(always)]
    pub(crate) fn arrive_burst(&mut self, packets: &[StoredPacket], now: Moment) -> usize
        ensures most { result ≤ length packets.now }
        ensures in_range { All IsStored (take result packets.now) }
        ensures arrived { self.new ≡ with_memory self.new.memory (arrived_by now (take result packets.now) self.old) }
        ensures fates { fates_by now (take result packets.now) self.old ≡ replicate result Kept }
        ensures none { result ≡ 0 → self.new ≡ self.old }
        ensures next { result < budget_at self.old → result < room_at self.old.memory.tree.tree.root →
            IfSome (slice_get packets.now result) (λ c. IsShort self.old.memory.tree.tree.device.mtu c → ⊥) }
        ensures below { result < budget_at self.old → IsNoFifo self.old.memory.tree.tree.root.own.discipline →
            IfSome (slice_get packets.now result) (λ c. IsShort self.old.memory.tree.tree.device.mtu c → CanBeKeptBelow (descriptor c) self.new.memory.tree.tree.root → ⊥) }
        ensures places { KeepsPlaces self.old self.new }
    {
        moment_range(now);
        let wanted = packets.len() as u64;
        let spare = renewed(
            self.spare,
            wanted,
            &self.tree,
            &self.losses,
            &self.recorded,
            &self.settings,
        );
        let most = packets.len().min(spare as usize);
        let at = later(&self.tree, now);
        let kept = self.tree.arrive_burst(&packets[..most], at);
        self.spare = spare - kept as u64;
        kept
    }

    /// The first polls that give a packet with nothing lost or marked, where no event is recorded any more. Returns how many.
    #[inline(always)]
    pub(crate) fn poll_burst<T: Told>(&mut self, now: Moment, places: &mut [T]) -> usize
        ensures given { IsPolledFirst T.told now result places.old places.new self.old self.new }
        ensures most { result ≤ length places.old }
        ensures next { self.old.settings.recorder ≤ length self.old.recorded → result < length places.old → HasHead self.new.memory.tree.tree.root → ⊥ }
        ensures below { self.old.settings.recorder ≤ length self.old.recorded → result < length places.old → IsNoFifo self.old.memory.tree.tree.root.own.discipline →
            CanGive (max self.old.memory.tree.clock now) self.new.memory.tree.tree.root → ⊥ }
    {
        moment_range(now);
        if has_room(&self.recorded, &self.settings) {
            return 0;
        }
        let at = later(&self.tree, now);
        self.tree.send_burst(at, places)
    }
}

// How many packets may arrive with nothing else asked, where so many are wanted: what is left of the budget if it is enough, and else a new
// one, which is larger where packets have left since.
#[inline(always)]
fn renewed(
    spare: u64,
    wanted: u64,
    tree: &Tree,
    losses: &Losses,
    recorded: &Vec<Event>,
    settings: &Settings,
) -> u64
    requires room_fit { length (beneath tree.now.tree.root) + length losses.now.waiting + spare ≤ losses.now.places }
    requires packets_fit { tree.now.tree.top.counts.arrived.packets + spare < 2 ^ 64 }
    requires bytes_fit { tree.now.tree.top.counts.arrived.bytes + spare * longest < 2 ^ 64 }
    requires recorded { 1 ≤ spare → settings.now.recorder ≤ length recorded.now.items }
    ensures room { length (beneath tree.now.tree.root) + length losses.now.waiting + result ≤ losses.now.places }
    ensures packets { tree.now.tree.top.counts.arrived.packets + result < 2 ^ 64 }
    ensures bytes { tree.now.tree.top.counts.arrived.bytes + result * longest < 2 ^ 64 }
    ensures full { 1 ≤ result → settings.now.recorder ≤ length recorded.now.items }
    ensures least { settings.now.recorder ≤ length recorded.now.items → result < wanted →
        result ≡ min (min (losses.now.places - length losses.now.waiting - length (beneath tree.now.tree.root)) (2 ^ 64 - 1 - tree.now.tree.top.counts.arrived.packets)) ((2 ^ 64 - 1 - tree.now.tree.top.counts.arrived.bytes) / longest) }
{
    if wanted <= spare {
        return spare;
    }
    budget(tree, losses, recorded, settings)
}
