//! The show texts of a tree, node by node, each put into the output whole.
ghost use Rattle.std.specs.Prelude.{◌≡◌, ◌++◌, OnOk, OnErr, IfErr};
ghost use Rattle.std.specs.List.{flat_map};
ghost use Rattle.q_model.specs.Tally.{totals};
ghost use Rattle.q_model.specs.Views.{views};
ghost use Rattle.q_script_semantics.specs.Report.{show_text};
ghost use Rattle.q_script_semantics.specs.Text.{qdisc_text};
ghost use Rattle.q_session.specs.Shown.{IsLawfulSeen, IsOfLawful, counted, listed_text};
ghost use Rattle.q_show.specs.Writes.{MayWrite, WriteFailed};
ghost use Rattle.q_show.specs.Written.{AppendsFront, HasPut, IsBuffered};
ghost use Rattle.q_tree.specs.TreeSeen.{numbers, tree_numbers};

use crate::listed::Listed;
use q_line::{Object, Show};
use q_model::{ClassView, FilterView};
use q_script::Output;
use q_show::{Target, WriteFault, qdisc_text};
use q_tree::laws::tree_is_lawful;
use q_tree::{NodeRef, Tree};
use std::io::Write;

/// What a show line asks for, from the root down.
pub fn put_show<W: Write>(
    tree: &Tree,
    show: Show,
    output: &mut Output,
    target: &mut Target<'_, W>,
) -> Result<(), WriteFault>
    requires going { MayWrite target.old.writes }
    ensures same_writer { target.new.writer.ghost_name ≡ target.old.writer.ghost_name }
    ensures ok { OnOk result (IsBuffered (W.contents target.old.writer.now) (W.contents target.new.writer.now) output.new
        (output.old ++ show_text totals show (numbers tree.now))) }
    ensures err { OnErr result (AppendsFront (W.contents target.old.writer.now) (W.contents target.new.writer.now)
        (output.old ++ show_text totals show (numbers tree.now))) }
    ensures going { OnOk result (MayWrite target.new.writes) }
    ensures failed { IfErr result (λ fault. WriteFailed target.new.writes fault.kind) }
{
    tree_is_lawful(tree);
    match show.object {
        Object::Qdisc => put_qdiscs(tree, show.counters, output, target),
        Object::Class => put_listed::<ClassView, W>(tree, output, target),
        Object::Filter => put_listed::<FilterView, W>(tree, output, target),
    }
}

/// Each qdisc from the root down, with its counters where they are asked for.
fn put_qdiscs<W: Write>(
    tree: &Tree,
    counters: bool,
    output: &mut Output,
    target: &mut Target<'_, W>,
) -> Result<(), WriteFault>
    requires lawful { IsLawfulSeen tree.now.tree }
    requires going { MayWrite target.old.writes }
    ensures { HasPut W.contents target.old target.new output.new
        (output.old ++ flat_map (qdisc_text counters) (views totals (tree_numbers tree.now.tree))) result }
{
    let mut nodes = tree.nodes();
    while let Some(node) = nodes.next() {
        output.make_room(target)?;
        output.put(qdisc_text(&node.view(), counters).as_bytes());
    }
    Ok(())
}

/// The classes or the filters of each node, from the root down.
fn put_listed<L: Listed, W: Write>(
    tree: &Tree,
    output: &mut Output,
    target: &mut Target<'_, W>,
) -> Result<(), WriteFault>
    requires lawful { IsLawfulSeen tree.now.tree }
    requires going { MayWrite target.old.writes }
    ensures { HasPut W.contents target.old target.new output.new (output.old ++ listed_text L.line L.of_node (tree_numbers tree.now.tree)) result }
{
    let mut nodes = tree.nodes();
    while let Some(node) = nodes.next() {
        put_listed_at::<L, W>(&node, output, target)?;
    }
    Ok(())
}

/// Those of one node.
fn put_listed_at<L: Listed, W: Write>(
    node: &NodeRef<'_>,
    output: &mut Output,
    target: &mut Target<'_, W>,
) -> Result<(), WriteFault>
    requires lawful { IsOfLawful node.now.1 }
    requires going { MayWrite target.old.writes }
    ensures { HasPut W.contents target.old target.new output.new (output.old ++ flat_map L.line (L.of_node (counted node.now.1))) result }
{
    let mut j = 0;
    while let Some(listed) = L::find(node, j) {
        output.make_room(target)?;
        output.put(listed.text().as_bytes());
        j += 1;
    }
    Ok(())
}
