ghost use Rattle.std.specs.Prelude.{◌≡◌, ◌-ℤ◌, ◌<ℤ◌, ◌≤ℤ◌, ◌≤◌, pos};
ghost use Rattle.q_fqcodel.specs.Quanta.{given, need};

use std::marker::Model;

/// A flow in the list of new or of old flows (RFC 8290, section 4.2).
///
/// A contract sees it as the record `Entry` of the fields.
#[derive(Clone, Copy)]
pub(crate) struct Entry {
    /// The flow's index, below the number of flows.
    pub flow: u32,
    /// The bytes that the flow may still send in this round; at most 0 means that it has to wait for a quantum.
    pub credits: i64,
}

impl Model for Entry {
    ghost use Rattle.q_fqcodel.specs.Entry.{Entry};

    ghost Value = { Entry };

    ghost view = { λ e. record { flow = e.flow; credits = e.credits } };

    ghost inverse = { λ e. record { flow = e.flow; credits = e.credits } };
}

impl Entry {
    /// The flow with one quantum more.
    pub(crate) fn granted(self, quantum: u32) -> Entry
        requires { self.credits ≤ℤ pos 0 }
        ensures { result ≡ given quantum 1 self }
    {
        Entry {
            flow: self.flow,
            credits: self.credits + quantum as i64,
        }
    }

    /// How many quanta it takes until the flow may send: a division where it has no credits.
    pub(crate) fn needed(self, quantum: u32) -> u64
        requires { 1 ≤ quantum }
        ensures { result ≡ need quantum self }
    {
        if self.credits > 0 {
            return 0;
        }
        self.credits.unsigned_abs() / quantum as u64 + 1
    }

    /// The flow with so many quanta more, none of which it could do without.
    pub(crate) fn given(self, quanta: u64, quantum: u32) -> Entry
        requires { quanta ≤ need quantum self }
        ensures { result ≡ given quantum quanta self }
    {
        let credits = self.credits;
        Entry {
            flow: self.flow,
            credits: credits.saturating_add_unsigned(quanta * quantum as u64),
        }
    }

    /// The flow once it has sent a packet of so many bytes.
    pub(crate) fn charged(self, len: u16) -> Entry
        requires { pos 0 <ℤ self.credits }
        ensures { result ≡ record self { credits = self.credits -ℤ pos len } }
    {
        Entry {
            flow: self.flow,
            credits: self.credits - len as i64,
        }
    }
}
