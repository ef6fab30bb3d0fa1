//! Losses are handed out, as many as there are places for.
ghost use Rattle.q_device.specs.device.Reaps.{IsReaps};

use crate::device::Device;
use crate::told_loss::ToldLoss;

impl Device {
    /// Hands out losses, oldest first, each as by [`Device::reap`], until each place has one or none waits any more. They are written into the
    /// first places; what is behind them stays as it was.
    ///
    /// Returns how many were handed out. Allocates nothing, and is no event.
    pub fn reap_many<L: ToldLoss>(&mut self, places: &mut [L]) -> usize
        ensures { IsReaps L.told result places.old places.new self.old self.new }
    {
        for i in 0..places.len() {
            match self.reap() {
                Some(lost) => places[i] = L::tell(&lost),
                None => return i,
            }
        }
        places.len()
    }
}
