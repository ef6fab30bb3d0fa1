ghost use Rattle.std.specs.Prelude.{◌≡◌, ◌≤◌, ◌↔◌, IfSome, IsSome};

use std::marker::Model;

/// The settings of a run: the options of `qtree play`. A contract sees the record `Settings`.
#[derive(Clone, Copy, PartialEq, Eq, Debug)]
pub struct RunSettings {
    mtu: u16,
    txqueuelen: u32,
    seed: u32,
    recorder: u32,
}

impl Model for RunSettings {
    ghost use Rattle.q_script.specs.Settings.{Settings, IsInRange};

    ghost Value = { Settings };

    ghost view = { λ s. record { mtu = s.mtu; txqueuelen = s.txqueuelen; seed = s.seed; recorder = s.recorder } };

    ghost invariant = { λ s. IsInRange (record { mtu = s.mtu; txqueuelen = s.txqueuelen; seed = s.seed; recorder = s.recorder }) };

    ghost inverse = { λ s. record { mtu = s.mtu; txqueuelen = s.txqueuelen; seed = s.seed; recorder = s.recorder } };
}

impl RunSettings {
    ghost use Rattle.q_script.specs.Settings.{Settings, IsInRange, default_settings};

    /// The most events that a recorder keeps.
    pub const MAX_RECORDER: u32 = 1_000_000;

    /// Settings with an mtu of at least 1 byte, the root's first limit in packets, the seed of the hash, and the recorder's
    /// capacity of at most [`RunSettings::MAX_RECORDER`] events; `None` outside these ranges.
    pub fn new(mtu: u16, txqueuelen: u32, seed: u32, recorder: u32) -> Option<RunSettings>
        ensures in_range { IsSome result ↔ ((1 ≤ mtu) × (recorder ≤ 1000000)) }
        ensures value { IfSome result (λ s. s ≡ record { mtu = mtu; txqueuelen = txqueuelen; seed = seed; recorder = recorder }) }
    {
        if mtu >= 1 && recorder <= RunSettings::MAX_RECORDER {
            Some(RunSettings {
                mtu,
                txqueuelen,
                seed,
                recorder,
            })
        } else {
            None
        }
    }

    /// The settings of `qtree play` without options.
    pub fn defaults() -> RunSettings
        ensures { result ≡ default_settings }
    {
        RunSettings {
            mtu: 1514,
            txqueuelen: 1000,
            seed: 0,
            recorder: 4096,
        }
    }

    /// Each option is within its range, which the type keeps. It does nothing: its clause is for other crates.
    pub fn ranges(&self)
        ensures { IsInRange self.now }
    {
        let _ = &self.mtu;
    }

    /// The most bytes that a packet may have, 1 to 65535.
    pub fn mtu(&self) -> u16
        ensures { result ≡ self.now.mtu }
    {
        self.mtu
    }

    /// How many packets the implicit root holds.
    pub fn txqueuelen(&self) -> u32
        ensures { result ≡ self.now.txqueuelen }
    {
        self.txqueuelen
    }

    /// The seed of the hash.
    pub fn seed(&self) -> u32
        ensures { result ≡ self.now.seed }
    {
        self.seed
    }

    /// How many events the recorder keeps, at most [`RunSettings::MAX_RECORDER`].
    pub fn recorder(&self) -> u32
        ensures { result ≡ self.now.recorder }
    {
        self.recorder
    }
}
