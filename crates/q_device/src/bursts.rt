//! Calls for several packets, all at the same time. Each does what the single calls do, one for each packet. Packets that a fifo keeps, or gives,
//! with nothing lost go together: the checks of the single calls are made once, and the device counts all of them at once.
ghost use Rattle.std.specs.Prelude.{◌≡◌, ◌≢◌, ◌≤◌, ◌++◌, IfErr, IfOk, List, OnErr, OnOk, None, Some, drop, length, option_map, replicate};
ghost use Rattle.q_model.specs.declared.event.Event.TheVariants.{Poll};
ghost use Rattle.q_model.specs.declared.fate.Fate.TheVariants.{Kept};
ghost use Rattle.q_packet.specs.Stored.{IsStored, descriptor};
ghost use Rattle.q_device.specs.device.Bursts.{IsArrivals, IsArriving, IsNotNext, IsPolling, IsPolls, arrival, fate_in, given_as};
ghost use Rattle.q_device.specs.device.DeviceSeen.{DeviceSeen};
ghost use Rattle.q_device.specs.device.Polls.{after_poll, given_at};
ghost use Rattle.q_device.specs.device.Room.{KeepsPlaces};
ghost use Rattle.q_device.specs.DeviceLaws.{HasItsMemory};
ghost use Rattle.q_device.specs.Events.{after_event, reply_to, with_memory};
ghost use Rattle.q_device.specs.declared.given.Given.TheVariants as given;

use crate::answer::Answer;
use crate::device::Device;
use crate::given::Given;
use q_codel::Told;
use q_model::Fate;
use q_packet::{Moment, SOME_KEPT, StoredPacket};

/// Why [`crate::Device::arrive_many`] did not let the next packet arrive.
#[derive(Clone, Copy, PartialEq, Eq, Debug)]
pub enum Stopped {
    /// The next packet has a field out of its range.
    OutOfRange,
    /// An allocation failed for the next packet.
    Memory,
}

impl Device {
    /// Lets packets arrive in order, each as by [`Device::arrive_stored`], and all at the time `now`. The first packet that has a field out of
    /// range, or for which an allocation fails, does not arrive, and ends the call.
    ///
    /// `fates` has at least as many places as there are packets. What becomes of `packets[i]` is written into `fates[i]`.
    ///
    /// Returns how many packets arrived, and why the next one did not, or `None` if all arrived. The packet that did not arrive changed nothing,
    /// except that there may be more places in memory: what there was room for, there still is room for.
    ///
    /// ```
    /// let mut fates = [Fate::Kept; 32];
    /// let (arrived, stopped) = device.arrive_many(&packets, &mut fates, now);
    /// ```
    pub fn arrive_many<A: Answer>(
        &mut self,
        packets: &[StoredPacket],
        fates: &mut [A],
        now: Moment,
    ) -> (usize, Option<Stopped>)
        requires { length packets.now ≤ length fates.old }
        ensures { IsArrivals A.answer now packets.now result.1 result.0 fates.old fates.new self.old self.new }
    {
        let mut done = 0;
        while done < packets.len() {
            let kept = self.arrive_burst(&packets[done..], now);
            all_kept(&mut fates[done..], kept);
            // Where a burst keeps none, the others come one by one.
            if kept == 0 {
                return self.arrive_each(packets, fates, now, done);
            }
            done += kept;
            if done == packets.len() {
                return (done, None);
            }
            // A burst may have ended at this one alone, or for want of a place that it makes.
            match self.arrive_next(&packets[done], now) {
                Ok(fate) => fates[done] = A::of(fate),
                Err(why) => return (done, Some(why)),
            }
            done += 1;
        }
        (done, None)
    }

    /// Polls until each place has a packet, or until a poll gives none, all at the time `now`. The packets are written into the first places, in
    /// the form that the type of the places has: a [`StoredPacket`] has all fields of a packet.
    ///
    /// Returns how many packets were given, and the answer of the last poll, which is [`Given::Packet`] if each place has a packet. Allocates
    /// nothing.
    pub fn poll_many<T: Told>(&mut self, now: Moment, places: &mut [T]) -> (usize, Given)
        ensures { IsPolls T.told now result.1 result.0 places.old places.new self.old self.new }
    {
        let mut done = 0;
        while done < places.len() {
            let given = self.poll_burst(now, &mut places[done..]);
            // Where a burst gives none, the others go one by one.
            if given == 0 {
                return self.poll_each(now, places, done);
            }
            done += given;
            if done == places.len() {
                return (done, Given::Packet);
            }
            match self.poll_next(now, &mut places[done]) {
                Given::Packet => {}
                Given::Idle => return (done, Given::Idle),
                Given::Later => return (done, Given::Later),
            }
            done += 1;
        }
        (done, Given::Packet)
    }

    // Those behind the first `done` arrive one by one. In a function of its own the loop has the registers for itself.
    #[inline(never)]
    fn arrive_each<A: Answer>(
        &mut self,
        packets: &[StoredPacket],
        fates: &mut [A],
        now: Moment,
        done: usize,
    ) -> (usize, Option<Stopped>)
        requires room { length packets.now ≤ length fates.old }
        requires within { done ≤ length packets.now }
        ensures { (before : List A) (d : DeviceSeen) → length packets.now ≤ length before → IsArriving A.answer done now packets.now before fates.old d self.old →
            IsArrivals A.answer now packets.now result.1 result.0 before fates.new d self.new }
    {
        for i in done..packets.len() {
            match self.arrive_next(&packets[i], now) {
                Ok(fate) => fates[i] = A::of(fate),
                Err(why) => return (i, Some(why)),
            }
        }
        (packets.len(), None)
    }

    // One of them arrives.
    #[inline(always)]
    fn arrive_next(&mut self, packet: &StoredPacket, now: Moment) -> Result<Fate, Stopped>
        ensures event { OnOk result (self.new ≡ with_memory self.new.memory (after_event (arrival now packet.now) self.old)) }
        ensures fate { IfOk result (λ fate. fate ≡ fate_in (reply_to (arrival now packet.now) self.old)) }
        ensures in_range { OnOk result (IsStored packet.now) }
        ensures stops { IfErr result (λ why. IsNotNext packet.now why self.old self.new) }
        ensures places { KeepsPlaces self.old self.new }
    {
        self.kept();
        if !packet.in_range() {
            return Err(Stopped::OutOfRange);
        }
        match self.arrive_stored(packet, now) {
            Ok(fate) => Ok(fate),
            Err(_) => Err(Stopped::Memory),
        }
    }

    // Those behind the first `done` polls are made one by one.
    #[inline(never)]
    fn poll_each<T: Told>(&mut self, now: Moment, places: &mut [T], done: usize) -> (usize, Given)
        requires within { done ≤ length places.old }
        ensures { (before : List T) (d : DeviceSeen) → length before ≡ length places.old → IsPolling T.told done (length before) now before places.old d self.old →
            IsPolls T.told now result.1 result.0 before places.new d self.new }
    {
        for i in done..places.len() {
            match self.poll_next(now, &mut places[i]) {
                Given::Packet => {}
                Given::Idle => return (i, Given::Idle),
                Given::Later => return (i, Given::Later),
            }
        }
        (places.len(), Given::Packet)
    }

    // One of the polls.
    #[inline(always)]
    fn poll_next<T: Told>(&mut self, now: Moment, place: &mut T) -> Given
        ensures polled { self.new ≡ after_poll now self.old }
        ensures answer { result ≡ given_as (reply_to (Poll now) self.old) }
        ensures given { result ≡ given.Packet → option_map T.told (given_at now self.old) ≡ Some place.new }
        ensures none { result ≢ given.Packet → (given_at now self.old ≡ None) × (place.new ≡ place.old) }
    {
        let mut packet = SOME_KEPT;
        match self.poll_kept(now, &mut packet) {
            Given::Packet => {
                *place = T::tell(&packet);
                Given::Packet
            }
            Given::Idle => Given::Idle,
            Given::Later => Given::Later,
        }
    }
}

// So many packets were kept.
#[inline(always)]
fn all_kept<A: Answer>(fates: &mut [A], kept: usize)
    requires { kept ≤ length fates.old }
    ensures { fates.new ≡ replicate kept (A.answer Kept) ++ drop kept fates.old }
{
    for i in 0..kept {
        fates[i] = A::of(Fate::Kept);
    }
}
