//! The place for a packet: memory is made at the end of its route before it arrives, so that the arrival itself takes none.
ghost use Rattle.std.specs.Prelude.{◌≡◌, ◌≤◌, IsOk, IsSome, List, OnOk, map, ℕ};
ghost use Rattle.q_model.specs.Find.{node_at};
ghost use Rattle.q_tree.specs.arrival.Arrivals.{HasPlace, HasPlaceIn};
ghost use Rattle.q_tree.specs.arrival.Places.{HasPlaceAt, Leads, places_at, places_under, unplaced};
ghost use Rattle.q_tree.specs.Seen.{children_seen, discipline_seen, places_seen};

use crate::node::{Discipline, Node};
use std::alloc::AllocError;

impl Node {
    /// Makes a place for one packet more in the queue where this path ends, if it ends in one. The places are all that
    /// changes, also if an allocation fails, and no queue has fewer; it succeeds where there is a place already.
    #[cycle(prepare)]
    pub(crate) fn prepare(&mut self, path: &[usize]) -> Result<(), AllocError>
        requires { IsSome (node_at path.now self.old) }
        ensures same { unplaced self.new ≡ unplaced self.old }
        ensures places { (way : List ℕ) → places_at way self.old ≤ places_at way self.new }
        ensures ok { OnOk result (HasPlace path.now self.new) }
        ensures succeeds { HasPlace path.now self.old → IsOk result }
    {
        let Some((&place, rest)) = path.split_first() else {
            return self.discipline.reserve();
        };
        self.discipline.prepare_beneath(place, rest)
    }
}

impl Discipline {
    // Makes a place in its own queue, if it has one.
    fn reserve(&mut self) -> Result<(), AllocError>
        ensures discipline { discipline_seen self.new ≡ discipline_seen self.old }
        ensures children { children_seen self.new ≡ children_seen self.old }
        ensures grows { places_seen self.old ≤ places_seen self.new }
        ensures ok { OnOk result (HasPlaceIn (places_seen self.new) (discipline_seen self.new)) }
        ensures succeeds { HasPlaceIn (places_seen self.old) (discipline_seen self.old) → IsOk result }
    {
        match self {
            Discipline::Fifo(fifo) => return fifo.reserve(),
            Discipline::FqCodel(queue) => return queue.reserve(),
            Discipline::Prio { .. } | Discipline::Tbf { .. } | Discipline::Drr { .. } => {
                return Ok(());
            }
        }
    }

    // Makes a place below the child in this place.
    #[cycle(prepare)]
    fn prepare_beneath(&mut self, place: usize, rest: &[usize]) -> Result<(), AllocError>
        requires { Leads rest.now place (children_seen self.old) }
        ensures discipline { discipline_seen self.new ≡ discipline_seen self.old }
        ensures places { places_seen self.new ≡ places_seen self.old }
        ensures children { map unplaced (children_seen self.new) ≡ map unplaced (children_seen self.old) }
        ensures grow { (way : List ℕ) (i : ℕ) → places_under way i (children_seen self.old) ≤ places_under way i (children_seen self.new) }
        ensures ok { OnOk result (HasPlaceAt rest.now place (children_seen self.new)) }
        ensures succeeds { HasPlaceAt rest.now place (children_seen self.old) → IsOk result }
    {
        match self {
            Discipline::Prio { bands, .. } => return bands[place].prepare(rest),
            Discipline::Tbf { child, .. } => return child.prepare(rest),
            Discipline::Drr { classes, .. } => return classes[place].prepare(rest),
            Discipline::Fifo(_) | Discipline::FqCodel(_) => return Ok(()),
        }
    }
}
