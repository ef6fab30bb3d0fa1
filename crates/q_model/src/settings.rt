ghost use Rattle.std.specs.Prelude.{◌≡◌, ◌↔◌, IfSome, IsSome};
ghost use Rattle.q_model.specs.Settings.{IsInRange};

use std::marker::Model;

/// The settings of a device.
///
/// A contract sees them as the record `DeviceSettings` of the fields. Each is within its range: code that would leave
/// another number there is refused.
#[derive(Clone, Copy, PartialEq, Eq, Debug)]
pub struct Settings {
    /// The longest packet that it takes, in bytes, 1 to 65535.
    pub mtu: u16,
    /// The packets that a pfifo without a limit holds (ip-link(8)).
    pub txqueuelen: u32,
    /// How many events are kept, at most 1,000,000.
    pub recorder: u32,
}

impl Model for Settings {
    ghost use Rattle.q_model.specs.Settings.{DeviceSettings, IsInRange};

    ghost Value = { DeviceSettings };

    ghost view = { λ s. record { mtu = s.mtu; txqueuelen = s.txqueuelen; recorder = s.recorder } };

    ghost invariant = { λ s. IsInRange (record { mtu = s.mtu; txqueuelen = s.txqueuelen; recorder = s.recorder }) };

    ghost inverse = { λ s. record { mtu = s.mtu; txqueuelen = s.txqueuelen; recorder = s.recorder } };
}

impl Settings {
    /// The settings with these fields; `None` where one is out of its range.
    pub fn new(mtu: u16, txqueuelen: u32, recorder: u32) -> Option<Settings>
        ensures in_range { IsSome result ↔ IsInRange (record { mtu = mtu; txqueuelen = txqueuelen; recorder = recorder }) }
        ensures value { IfSome result (λ s. s ≡ record { mtu = mtu; txqueuelen = txqueuelen; recorder = recorder }) }
    {
        if mtu >= 1 && recorder <= 1_000_000 {
            Some(Settings {
                mtu,
                txqueuelen,
                recorder,
            })
        } else {
            None
        }
    }

    /// Each field is within its range, which the type keeps. It does nothing: its clause is for the laws of other crates.
    pub fn ranges(&self)
        ensures { IsInRange self.now }
    {
        let _ = &self.mtu;
    }
}
