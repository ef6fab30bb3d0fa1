//! What `tc qdisc show`, `tc class show` and `tc filter show` print of a tree, into any writer.
ghost use Rattle.std.specs.Prelude.{◌≡◌, []};
ghost use Rattle.std.specs.List.{flat_map};
ghost use Rattle.q_model.specs.Tally.{totals};
ghost use Rattle.q_model.specs.Views.{class_views, filter_views, views};
ghost use Rattle.q_script_semantics.specs.Report.{show_text};
ghost use Rattle.q_script_semantics.specs.Text.{class_line, filter_line, qdisc_text};
ghost use Rattle.q_session.specs.ShowFault.{IsShown};
ghost use Rattle.q_session.specs.Shown.{listed_text};
ghost use Rattle.q_show.specs.Writes.{MayWrite};
ghost use Rattle.q_show.specs.Written.{HasWrittenWhole};
ghost use Rattle.q_tree.specs.TreeSeen.{numbers, tree_numbers};

use crate::showing::put_show;
use q_line::{Object, Show};
use q_script::Output;
use q_show::{Target, WriteFault};
use q_tree::Tree;
use std::alloc::Global;
use std::io::{ErrorKind, Write};
use thiserror::Error;

/// Why a show text was not written whole.
#[derive(Clone, Copy, PartialEq, Eq, Debug, Error)]
pub enum ShowFault {
    /// A write failed in this way (`WriteZero`: it took no byte), or was interrupted once too often. The writer has a front of
    /// the text, and not all of it.
    #[error("the text cannot be written: {0}")]
    Write(ErrorKind),
    /// The allocation for the text failed. Nothing was written.
    #[error("memory is refused")]
    Memory,
}

/// Writes each qdisc from the root down, a line each (tc(8), `qdisc show`), and behind it its counters where they are asked for
/// (`tc -s`).
pub fn show_qdiscs<W: Write>(
    alloc: Global,
    tree: &Tree,
    counters: bool,
    writer: &mut W,
) -> Result<(), ShowFault>
    ensures { IsShown result (W.contents writer.old) (W.contents writer.new)
        (flat_map (qdisc_text counters) (views totals (tree_numbers tree.now.tree))) }
{
    let object = Object::Qdisc;
    show_tree(alloc, tree, Show { object, counters }, writer)
}

/// Writes the classes of each drr, a line each (tc(8), `class show`).
pub fn show_classes<W: Write>(alloc: Global, tree: &Tree, writer: &mut W) -> Result<(), ShowFault>
    ensures { IsShown result (W.contents writer.old) (W.contents writer.new)
        (listed_text class_line class_views (tree_numbers tree.now.tree)) }
{
    let object = Object::Class;
    let counters = false;
    show_tree(alloc, tree, Show { object, counters }, writer)
}

/// Writes the filters of each prio and drr, a line each (tc(8), `filter show`).
pub fn show_filters<W: Write>(alloc: Global, tree: &Tree, writer: &mut W) -> Result<(), ShowFault>
    ensures { IsShown result (W.contents writer.old) (W.contents writer.new)
        (listed_text filter_line filter_views (tree_numbers tree.now.tree)) }
{
    let object = Object::Filter;
    let counters = false;
    show_tree(alloc, tree, Show { object, counters }, writer)
}

/// Writes what is shown of a tree.
fn show_tree<W: Write>(
    alloc: Global,
    tree: &Tree,
    show: Show,
    writer: &mut W,
) -> Result<(), ShowFault>
    ensures { IsShown result (W.contents writer.old) (W.contents writer.new) (show_text totals show (numbers tree.now)) }
{
    let Ok(mut output) = Output::new(alloc) else {
        return Err(ShowFault::Memory);
    };
    let mut target = Target::new(writer);
    match write_show(tree, show, &mut output, &mut target) {
        Ok(()) => Ok(()),
        Err(fault) => Err(ShowFault::Write(fault.kind)),
    }
}

/// Puts the text into the output, and writes out what is buffered then.
fn write_show<W: Write>(
    tree: &Tree,
    show: Show,
    output: &mut Output,
    target: &mut Target<'_, W>,
) -> Result<(), WriteFault>
    requires empty { output.old ≡ [] }
    requires going { MayWrite target.old.writes }
    ensures { HasWrittenWhole W.contents target.old target.new (show_text totals show (numbers tree.now)) result }
{
    put_show(tree, show, output, target)?;
    output.flush(target)
}
