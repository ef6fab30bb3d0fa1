ghost use Rattle.std.specs.Prelude.{◌≤◌, length};
ghost use Rattle.std.specs.Option.{option_to_list};
ghost use Rattle.q_codel.specs.Losses.{IsTold};
ghost use Rattle.q_model.specs.Beneath.{beneath};
ghost use Rattle.q_tree.specs.arrival.PutSteps.{packets_beneath};
ghost use Rattle.q_tree.specs.commands.Purging.{purged};
ghost use Rattle.q_tree.specs.departure.Holding.{packet_held};

use crate::departure::held::Held;
use crate::node::{Discipline, Node};
use q_codel::Sink;
use q_packet::Cause;

impl Node {
    /// Removes the node with all that is below it. Lost are the packet that it holds, those of its own queue, and then those
    /// below each child in class order.
    #[cycle(purge)]
    pub(crate) fn purge<S: Sink>(self, sink: &mut S)
        requires { length (beneath self) ≤ (S.state sink.old).room }
        ensures told { IsTold (purged (beneath self)) (S.state sink.old) (S.state sink.new) }
        ensures kept { S.keeps sink.old sink.new }
    {
        let Node {
            held,
            discipline,
            ..
        } = self;
        purge_held(held, sink);
        match discipline {
            Discipline::Fifo(mut fifo) => fifo.purge(sink),
            Discipline::FqCodel(mut queue) => queue.purge(sink),
            Discipline::Prio { bands, .. } => purge_each(bands, sink),
            Discipline::Tbf { child, .. } => Box::into_inner(child).purge(sink),
            Discipline::Drr { classes, .. } => purge_each(classes, sink),
        }
    }
}

// Loses the packet that a node holds, if it holds one.
fn purge_held<S: Sink>(held: Held, sink: &mut S)
    requires { length (option_to_list (packet_held held)) ≤ (S.state sink.old).room }
    ensures told { IsTold (purged (option_to_list (packet_held held))) (S.state sink.old) (S.state sink.new) }
    ensures kept { S.keeps sink.old sink.new }
{
    if let Some(packet) = held.packet() {
        sink.lost(packet.packet(), Cause::Purged);
    }
}

// Removes nodes side by side, in their order.
#[cycle(purge)]
fn purge_each<S: Sink>(nodes: Vec<Node>, sink: &mut S)
    requires { length (packets_beneath nodes.items) ≤ (S.state sink.old).room }
    ensures told { IsTold (purged (packets_beneath nodes.items)) (S.state sink.old) (S.state sink.new) }
    ensures kept { S.keeps sink.old sink.new }
{
    for node in nodes {
        node.purge(sink);
    }
}
