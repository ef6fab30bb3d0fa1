//! Packets that are taken in from a ring are noted among the last events.
ghost use Rattle.std.specs.Prelude.{◌≡◌, ◌≤◌, ◌<◌, [], true, false, length, OnOk, OnErr};
ghost use Rattle.q_device.specs.log.LastNoted.{all_noted};
ghost use Rattle.q_model.specs.Step.{counts_at};
ghost use Rattle.q_ports.specs.NotedIn.{arrivals_between, NotesFirst};
ghost use Rattle.q_device.specs.device.Room.{StaysButForPlaces};
ghost use Rattle.q_ports.specs.TakenIn.{HasNoRoomForFirst, StopsAtFirst, TakesFirst, TakesIn};

use crate::outlet::Outlet;
use crate::taken_in::TakenIn;
use q_device::{Device, Event, LastEvents};
use q_packet::Moment;
use std::alloc::AllocError;

impl Outlet {
    /// Does what [`Outlet::take_in`] does, and notes each arrival in `last`, the log of the last events that the program keeps beside the device.
    pub fn take_in_noted(
        &mut self,
        device: &mut Device,
        last: &mut LastEvents,
        now: Moment,
        most: usize,
    ) -> TakenIn
        ensures few { result.taken ≤ most }
        ensures taken { TakesIn now self.old self.new device.old device.new result.taken }
        ensures whole { result.memory ≡ false → result.taken < most → self.new.known ≡ [] }
        ensures stopped { result.memory ≡ true → StopsAtFirst now self.old self.new device.old device.new result.taken }
        ensures noted { last.new ≡ all_noted (arrivals_between now device.old self.old self.new) last.old }
    {
        for taken in 0..most {
            if self.is_empty() {
                return TakenIn {
                    taken,
                    memory: false,
                };
            }
            match self.take_first_noted(device, last, now) {
                Ok(()) => {}
                Err(_) => {
                    return TakenIn {
                        taken,
                        memory: true,
                    };
                }
            }
        }
        TakenIn {
            taken: most,
            memory: false,
        }
    }

    // [`Outlet::take_first`], which notes the arrival at the time that the device's clock shows then.
    fn take_first_noted(
        &mut self,
        device: &mut Device,
        last: &mut LastEvents,
        now: Moment,
    ) -> Result<(), AllocError>
        requires { 0 < length self.old.known }
        ensures taken { OnOk result (TakesFirst now self.old self.new device.old device.new) }
        ensures same { OnErr result (self.new ≡ self.old) }
        ensures same_device { OnErr result (StaysButForPlaces device.old device.new) }
        ensures refused { OnErr result (HasNoRoomForFirst device.old self.old) }
        ensures noted { OnOk result (NotesFirst self.old device.new.device.clock last.old last.new) }
        ensures unnoted { OnErr result (last.new ≡ last.old) }
        ensures clock { OnOk result (device.new.device.clock ≡ counts_at now device.old.device) }
    {
        let packet = self.first();
        self.take_first(device, now)?;
        last.note(Event::Arrive(packet.packet(), device.clock()));
        Ok(())
    }
}
