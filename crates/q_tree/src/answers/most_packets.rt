ghost use Rattle.std.specs.Prelude.{◌≡◌, ◌≤◌, ◌+◌, ◌-◌, ◌^◌, length, max, min};
ghost use Rattle.q_fqcodel.specs.FqState.{packets_of};
ghost use Rattle.q_model.specs.Beneath.{beneath};
ghost use Rattle.q_packet.specs.Totals.{count};
ghost use Rattle.q_tree.specs.answers.MostPackets.{most_held, most_packets, most_queued, most_under};
ghost use Rattle.q_tree.specs.Seen.{discipline_seen};

use crate::node::{Discipline, Node};
use crate::tree::Tree;
use q_codel::{Fifo, Limit};
use q_fqcodel::FqCodel;

impl Tree {
    /// Computes how many packets the tree can hold at most, now and as long as no command changes it. What is queued is never more. If the number
    /// is above `u64::MAX`, returns `u64::MAX`.
    ///
    /// It is the sum of the limits of all queues, and one packet for each tbf, drr and fq_codel, which may hold the packet that it shows. If the
    /// limit of a queue was set below what the queue has, what it has counts in place of the limit. A limit in bytes counts as that many packets,
    /// since a packet has at least one byte. Changes nothing, allocates nothing, and visits each node once.
    pub fn most_packets(&self) -> u64
        ensures value { result ≡ min (most_packets self.now.tree.root) (2 ^ 64 - 1) }
        ensures bound { length (beneath self.now.tree.root) ≤ result }
    {
        // That the tree is lawful is known where it is looked into.
        let _ = &self.mtu;
        // What is queued was counted in 64 bits.
        let queued = self.root.queued();
        let _ = &queued.packets;
        self.root.most_packets()
    }
}

impl Node {
    // The same of the node and those below it.
    fn most_packets(&self) -> u64
        ensures { result ≡ min (most_packets self.now) (2 ^ 64 - 1) }
    {
        let mut most = self.discipline.most_packets();
        for child in self.children() {
            most = most.saturating_add(child.most_packets());
        }
        most
    }
}

impl Discipline {
    // The same of a qdisc without those below it: the packets of its own queue, and the one that it may hold.
    fn most_packets(&self) -> u64
        ensures { result ≡ min (most_queued (discipline_seen self.now) + most_held (discipline_seen self.now)) (2 ^ 64 - 1) }
    {
        match self {
            Discipline::Fifo(fifo) => return most_in_fifo(fifo),
            Discipline::FqCodel(queue) => return most_in_flows(queue).saturating_add(1),
            Discipline::Tbf { .. } | Discipline::Drr { .. } => return 1,
            Discipline::Prio { .. } => return 0,
        }
    }
}

// The limit of a fifo, or what it has queued where that is more.
fn most_in_fifo(fifo: &Fifo) -> u64
    ensures { result ≡ max (most_under fifo.now.limit) (count fifo.now.packets) }
{
    match fifo.limit() {
        Limit::Packets(most) | Limit::Bytes(most) => return most.max(fifo.count()),
    }
}

// The same of an fq_codel.
fn most_in_flows(queue: &FqCodel) -> u64
    ensures { result ≡ max queue.now.state.settings.limit (packets_of queue.now.state.flows) }
{
    let (packets, _) = queue.queued();
    u64::from(queue.settings().limit).max(packets)
}
