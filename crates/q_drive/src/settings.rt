ghost use Rattle.std.specs.Prelude.{◌≡◌, ◌↔◌, IfSome, IsSome};

use q_script::RunSettings;
use std::marker::Model;

/// The settings of a drive: the options of `qtree drive`. A contract sees the record `Drive`.
#[derive(Clone, Copy, PartialEq, Eq, Debug)]
pub struct DriveSettings {
    device: RunSettings,
    senders: u8,
    count: u32,
    len: u16,
    ring: u32,
    until_idle: bool,
    show: bool,
}

impl Model for DriveSettings {
    ghost use Rattle.q_drive.specs.Drive.{Drive, IsInRange};

    ghost Value = { Drive };

    ghost view = { λ s. record { device = s.device; senders = s.senders; count = s.count; len = s.len; ring = s.ring; until_idle = s.until_idle; show = s.show } };

    ghost invariant = { λ s. IsInRange (record { device = s.device; senders = s.senders; count = s.count; len = s.len; ring = s.ring; until_idle = s.until_idle; show = s.show }) };

    ghost inverse = { λ s. record { device = s.device; senders = s.senders; count = s.count; len = s.len; ring = s.ring; until_idle = s.until_idle; show = s.show } };
}

impl DriveSettings {
    ghost use Rattle.q_drive.specs.Drive.{Drive, IsInRange};

    /// The most senders.
    pub const MAX_SENDERS: u8 = 64;

    /// The most packets of a load.
    pub const MAX_COUNT: u32 = 1_000_000;

    /// The most places of a ring.
    pub const MAX_RING: u32 = 65_536;

    /// Settings with the device's, 1 to [`DriveSettings::MAX_SENDERS`] senders, a load of at most [`DriveSettings::MAX_COUNT`]
    /// packets for each, packets of at least 1 byte, and a ring of 1 to [`DriveSettings::MAX_RING`] places for each; `None`
    /// outside these ranges. `until_idle` is whether the device is drained when the senders have ended, and `show` whether the
    /// qdiscs are shown at the end.
    pub fn new(
        device: RunSettings,
        senders: u8,
        count: u32,
        len: u16,
        ring: u32,
        until_idle: bool,
        show: bool,
    ) -> Option<DriveSettings>
        ensures in_range { IsSome result ↔ IsInRange (record { device = device; senders = senders; count = count; len = len; ring = ring; until_idle = until_idle; show = show }) }
        ensures value { IfSome result (λ s. s ≡ record { device = device; senders = senders; count = count; len = len; ring = ring; until_idle = until_idle; show = show }) }
    {
        let senders_fit = senders >= 1 && senders <= DriveSettings::MAX_SENDERS;
        let ring_fits = ring >= 1 && ring <= DriveSettings::MAX_RING;
        if senders_fit && count <= DriveSettings::MAX_COUNT && len >= 1 && ring_fits {
            Some(DriveSettings {
                device,
                senders,
                count,
                len,
                ring,
                until_idle,
                show,
            })
        } else {
            None
        }
    }

    /// Each option is within its range, which the type keeps. It does nothing: its clause is for callers.
    pub fn ranges(&self)
        ensures { IsInRange self.now }
    {
        let _ = &self.senders;
    }

    /// The settings of the device, and the seed, which no packet of a load needs.
    pub fn device(&self) -> RunSettings
        ensures { result ≡ self.now.device }
    {
        self.device
    }

    /// How many senders there are, each with a port and a thread of its own.
    pub fn senders(&self) -> usize
        ensures { result ≡ self.now.senders }
    {
        usize::from(self.senders)
    }

    /// How many packets each of them offers.
    pub fn count(&self) -> usize
        ensures { result ≡ self.now.count }
    {
        self.count as usize
    }

    /// The length of each packet in bytes.
    pub fn len(&self) -> u16
        ensures { result ≡ self.now.len }
    {
        self.len
    }

    /// How many places each port's ring has.
    pub fn ring(&self) -> usize
        ensures { result ≡ self.now.ring }
    {
        self.ring as usize
    }

    /// Whether the device is drained when the senders have ended.
    pub fn until_idle(&self) -> bool
        ensures { result ≡ self.now.until_idle }
    {
        self.until_idle
    }

    /// Whether the qdiscs are shown at the end, with their counters.
    pub fn show(&self) -> bool
        ensures { result ≡ self.now.show }
    {
        self.show
    }
}
