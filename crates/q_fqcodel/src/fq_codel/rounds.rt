//! The old flows, visit by visit, and rounds in which none of them sends at once: so a packet takes time in proportion to the listed
//! flows, however small the quantum is.
ghost use Rattle.std.specs.Prelude.{◌≡◌, ◌⊎◌, ◌<◌, ◌≤◌, [], length, slice_get, nat_lt, IsSome, IsNone, IfSome};
ghost use Rattle.q_fqcodel.specs.FqState.{packets_of};
ghost use Rattle.q_fqcodel.specs.Quanta.{need};
ghost use Rattle.q_fqcodel.specs.Rounds.{FrontNeeds, OldNeed, fewest_old, front_needs_then, rounds_at_once, rounds_given, visited};
ghost use Rattle.q_fqcodel.specs.Take.{selected, front};
ghost use Rattle.q_fqcodel.specs.Turns.{GoesOn, IsSettled, turns};

use crate::fq_codel::FqCodel;
use crate::visit::Visit;

impl FqCodel {
    /// Visits the flow in front of the old list, where the new one is empty: it sends, or it goes to the end or leaves.
    #[inline(always)]
    pub(crate) fn visit_old(&mut self) -> Visit
        requires no_new { self.old.state.new_flows ≡ [] }
        requires waiting { 0 < length self.old.state.old_flows }
        ensures first { IsSome result.first → result.first ≡ front self.old.state }
        ensures stays { IsSome result.first → self.new ≡ self.old }
        ensures settled { IsSome result.first → IsSettled self.new.state }
        ensures on { IsNone result.first → GoesOn self.old.state self.new.state }
        ensures visited { IsNone result.first → self.new.state ≡ visited 1 1 self.old.state }
        ensures short { IfSome (slice_get self.old.state.old_flows 0) (λ e. result.short ≡ nat_lt 1 (need self.old.state.settings.quantum e)) }
        ensures no_new { self.new.state.new_flows ≡ [] }
        ensures places { self.new.places ≡ self.old.places }
    {
        let settings = self.settings;
        let entry = self.lists.first_old().unwrap();
        // Its quantum is spent: it is given the next, and the others have their turn before it.
        if entry.credits <= 0 {
            let granted = entry.granted(settings.quantum);
            let short = granted.credits <= 0;
            self.lists.rotate(granted);
            return Visit { first: None, short };
        }
        // Emptied, and met a round later: it leaves, and its next packet makes it new again.
        if self.flows.is_idle(entry.flow) {
            self.flows.rest(entry.flow);
            self.lists.remove_old();
            return Visit {
                first: None,
                short: false,
            };
        }
        Visit {
            first: Some(entry),
            short: false,
        }
    }

    /// Visits each old flow once, unless one sends before. Where none does, those rounds that follow in which none sends are given at once.
    #[cold]
    #[inline(never)]
    pub(crate) fn skip_rounds(&mut self)
        requires no_new { self.old.state.new_flows ≡ [] }
        ensures at_once { IsSettled self.new.state ⊎ (self.new.state ≡ rounds_at_once self.old.state) }
        ensures same { selected self.new.state ≡ selected self.old.state }
        ensures turns { turns self.new.state ≤ turns self.old.state }
        ensures packets { packets_of self.new.state.flows ≡ packets_of self.old.state.flows }
        ensures no_new { self.new.state.new_flows ≡ [] }
        ensures places { self.new.places ≡ self.old.places }
    {
        if let Some(fewest) = self.visit_all() {
            self.give_rounds(fewest);
        }
    }

    // Visits each old flow once: the result is the fewest quanta that one with a packet needs then. `None` where one sends; it is in front.
    fn visit_all(&mut self) -> Option<u64>
        requires no_new { self.old.state.new_flows ≡ [] }
        ensures round { IsSome result → self.new.state ≡ rounds_given 1 self.old.state }
        ensures fewest { IfSome result (λ n. n ≡ fewest_old self.new.state) }
        ensures settled { IsNone result → IsSettled self.new.state }
        ensures same { selected self.new.state ≡ selected self.old.state }
        ensures turns { turns self.new.state ≤ turns self.old.state }
        ensures packets { packets_of self.new.state.flows ≡ packets_of self.old.state.flows }
        ensures no_new { self.new.state.new_flows ≡ [] }
        ensures places { self.new.places ≡ self.old.places }
    {
        let mut fewest = u64::MAX;
        for _visited in 0..self.lists.lengths().1 {
            let needed = self.front_needs_then();
            if let Some(_) = self.visit_old().first {
                return None;
            }
            fewest = fewest.min(needed);
        }
        Some(fewest)
    }

    // How many quanta the old flow in front needs after a visit; 2^64 - 1 where it is empty, or leaves or sends. It divides only where the
    // flow is to get a quantum.
    fn front_needs_then(&self) -> u64
        requires no_new { self.now.state.new_flows ≡ [] }
        requires waiting { 0 < length self.now.state.old_flows }
        ensures { result ≡ front_needs_then self.now.state }
    {
        let settings = self.settings;
        let quantum = settings.quantum;
        let entry = self.lists.first_old().unwrap();
        if entry.credits > 0 || self.flows.is_idle(entry.flow) {
            return u64::MAX;
        }
        entry.needed(quantum) - 1
    }

    // Gives each old flow so many quanta at once. Those that need fewer are empty, and leave.
    fn give_rounds(&mut self, rounds: u64)
        requires no_new { self.old.state.new_flows ≡ [] }
        requires needed { OldNeed rounds self.old.state }
        ensures state { self.new.state ≡ rounds_given rounds self.old.state }
        ensures same { selected self.new.state ≡ selected self.old.state }
        ensures turns { turns self.new.state ≤ turns self.old.state }
        ensures places { self.new.places ≡ self.old.places }
    {
        let settings = self.settings;
        let quantum = settings.quantum;
        for _given in 0..self.lists.lengths().1 {
            self.give_front(rounds, quantum);
        }
    }

    // Gives the old flow in front so many quanta, and puts it at the end; where it needs fewer it is empty, and leaves.
    fn give_front(&mut self, quanta: u64, quantum: u32)
        requires no_new { self.old.state.new_flows ≡ [] }
        requires waiting { 0 < length self.old.state.old_flows }
        requires positive { 1 ≤ quantum }
        requires own { quantum ≡ self.old.state.settings.quantum }
        requires needed { FrontNeeds quanta self.old.state }
        ensures state { self.new.state ≡ visited quanta 1 self.old.state }
        ensures places { self.new.places ≡ self.old.places }
    {
        let entry = self.lists.first_old().unwrap();
        if entry.needed(quantum) < quanta {
            self.flows.rest(entry.flow);
            self.lists.remove_old();
            return;
        }
        self.lists.rotate(entry.given(quanta, quantum));
    }
}
