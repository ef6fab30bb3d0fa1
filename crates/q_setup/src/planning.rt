//! Which commands make the tree that a file wants of the tree that a device has.
//!
//! What goes is deleted first and what grows comes last, so that no tree on the way has more nodes or levels than one of the two.
ghost use Rattle.std.specs.Prelude.{◌≡◌, [], IfOk};
ghost use Rattle.q_setup.specs.Alike.{AreAlike, entries};

use crate::adding::add;
use crate::alike::{are_alike, quantum_of};
use crate::kinds::kind_of;
use crate::naming::is_chosen;
use crate::pair::{Pair, Parents};
use crate::seen::Seen;
use q_model::{ClassId, ClassView, Command, NodeView, Place, QdiscView, Quantum};
use q_tree::Tree;
use std::alloc::{AllocError, Global};

/// The commands, in order; none where the trees are alike.
pub(crate) fn planned(
    alloc: Global,
    keep: bool,
    mtu: u16,
    wanted: &Tree,
    tree: &Tree,
) -> Result<Vec<Command>, AllocError>
    ensures { IfOk result (λ commands. AreAlike keep (entries wanted.now.tree) (entries tree.now.tree) → commands.items ≡ []) }
{
    let mut commands = Vec::new(alloc);
    if are_alike(keep, wanted, tree) {
        return Ok(commands);
    }
    let wanted = Seen::of(alloc, wanted)?;
    let seen = Seen::of(alloc, tree)?;
    let pair = Pair {
        keep,
        mtu,
        wanted: &wanted,
        seen: &seen,
    };
    delete_filters(&pair, &mut commands)?;
    delete_classes(&pair, &mut commands)?;
    delete_qdiscs(&pair, &mut commands)?;
    shrink_prios(&pair, &mut commands)?;
    make_qdiscs(&pair, &mut commands)?;
    add_filters(&pair, &mut commands)?;
    Ok(commands)
}

// The filters of a priority that are not those that the file wants; what goes takes its filters along.
fn delete_filters(pair: &Pair<'_>, commands: &mut Vec<Command>) -> Result<(), AllocError> {
    let mut last = None;
    let mut parents = Parents::new();
    for filter in &pair.seen.filters {
        let (parent, prio) = (filter.parent, filter.filter.prio);
        if last == Some((parent, prio)) {
            continue;
        }
        last = Some((parent, prio));
        if parents.stays(pair, parent) && !pair.filters_stay(parent, prio) {
            add(commands, Command::FilterDel { parent, prio })?;
        }
    }
    Ok(())
}

// The classes of a drr that stays which the file does not have.
fn delete_classes(pair: &Pair<'_>, commands: &mut Vec<Command>) -> Result<(), AllocError> {
    for view in &pair.seen.classes {
        if quantum_of(&view.kind).is_some() && is_gone(pair, &view.class) {
            add(
                commands,
                Command::ClassDel {
                    parent: None,
                    class: view.class,
                },
            )?;
        }
    }
    Ok(())
}

fn is_gone(pair: &Pair<'_>, class: &ClassId) -> bool {
    pair.handle_stays(class.major) && !is_of_drr(pair.wanted, class)
}

// The qdiscs that do not stay in a place that does.
fn delete_qdiscs(pair: &Pair<'_>, commands: &mut Vec<Command>) -> Result<(), AllocError> {
    for node in &pair.seen.nodes {
        if node.handle.is_some()
            && pair.wanted_for(node).is_none()
            && place_stays(pair, &node.place)
        {
            add(
                commands,
                Command::QdiscDel {
                    place: None,
                    handle: node.handle,
                },
            )?;
        }
    }
    Ok(())
}

fn place_stays(pair: &Pair<'_>, place: &Place) -> bool {
    match place {
        Place::Class(class) => return class_stays(pair, class),
        _ => return true,
    }
}

// The classes of a prio and of a tbf go with their qdisc alone.
fn class_stays(pair: &Pair<'_>, class: &ClassId) -> bool {
    if !pair.handle_stays(class.major) {
        return false;
    }
    is_of_drr(pair.wanted, class) || !is_of_drr(pair.seen, class)
}

fn is_of_drr(seen: &Seen, class: &ClassId) -> bool {
    seen.quantum(class).is_some()
}

// The prios that lose bands.
fn shrink_prios(pair: &Pair<'_>, commands: &mut Vec<Command>) -> Result<(), AllocError> {
    for node in &pair.seen.nodes {
        if let Some(wanted) = pair.wanted_for(node) {
            if shrinks(&node.qdisc, &wanted.qdisc) && pair.stays(node) {
                change(node, &wanted, commands)?;
            }
        }
    }
    Ok(())
}

fn shrinks(from: &QdiscView, to: &QdiscView) -> bool {
    match (from, to) {
        (QdiscView::Prio { bands: old, .. }, QdiscView::Prio { bands, .. }) => *bands < *old,
        _ => false,
    }
}

fn change(
    node: &NodeView,
    wanted: &NodeView,
    commands: &mut Vec<Command>,
) -> Result<(), AllocError> {
    if let Some(kind) = kind_of(&wanted.qdisc) {
        add(
            commands,
            Command::QdiscChange {
                place: None,
                handle: node.handle,
                kind,
            },
        )?;
    }
    Ok(())
}

// From the root down each qdisc that the file wants is changed or added, and then its classes.
fn make_qdiscs(pair: &Pair<'_>, commands: &mut Vec<Command>) -> Result<(), AllocError> {
    for wanted in &pair.wanted.nodes {
        if wanted.handle.is_some() {
            make_qdisc(pair, wanted, commands)?;
        }
    }
    Ok(())
}

fn make_qdisc(
    pair: &Pair<'_>,
    wanted: &NodeView,
    commands: &mut Vec<Command>,
) -> Result<(), AllocError> {
    let staying = pair.staying(wanted);
    match &staying {
        None => add_qdisc(pair, wanted, commands)?,
        Some(node) => {
            if node.qdisc != wanted.qdisc && !shrinks(&node.qdisc, &wanted.qdisc) {
                change(node, wanted, commands)?;
            }
        }
    }
    for class in &pair.wanted.classes {
        if wanted.handle == Some(class.class.major) {
            make_class(pair, staying.is_some(), class, commands)?;
        }
    }
    Ok(())
}

fn add_qdisc(
    pair: &Pair<'_>,
    wanted: &NodeView,
    commands: &mut Vec<Command>,
) -> Result<(), AllocError> {
    let handle = match wanted.handle {
        Some(handle) if pair.keep && is_chosen(handle) => None,
        named => named,
    };
    if let Some(kind) = kind_of(&wanted.qdisc) {
        add(
            commands,
            Command::QdiscAdd {
                place: wanted.place,
                handle,
                kind,
            },
        )?;
    }
    Ok(())
}

// A class of a drr; the classes of the others come with them.
fn make_class(
    pair: &Pair<'_>,
    stays: bool,
    view: &ClassView,
    commands: &mut Vec<Command>,
) -> Result<(), AllocError> {
    if let Some(bytes) = quantum_of(&view.kind) {
        let old = old_quantum(pair, stays, &view.class);
        if let Some(command) = class_command(view.class, old, bytes) {
            add(commands, command)?;
        }
    }
    Ok(())
}

fn old_quantum(pair: &Pair<'_>, stays: bool, class: &ClassId) -> Option<u32> {
    if stays {
        return pair.seen.quantum(class);
    }
    None
}

fn class_command(class: ClassId, old: Option<u32>, bytes: u32) -> Option<Command> {
    let quantum = Quantum::new(bytes);
    match old {
        None => {
            return Some(Command::ClassAdd {
                parent: class.major,
                class,
                quantum,
            });
        }
        Some(old) => {
            if old == bytes {
                return None;
            }
            return Some(Command::ClassChange {
                parent: None,
                class,
                quantum,
            });
        }
    }
}

// The filters of each priority of which not all stay.
fn add_filters(pair: &Pair<'_>, commands: &mut Vec<Command>) -> Result<(), AllocError> {
    let mut parents = Parents::new();
    for view in &pair.wanted.filters {
        if !parents.stays(pair, view.parent) || !pair.filters_stay(view.parent, view.filter.prio) {
            add(
                commands,
                Command::FilterAdd {
                    parent: view.parent,
                    major: view.parent,
                    filter: view.filter,
                },
            )?;
        }
    }
    Ok(())
}
