//! The nodes and classes of a tree, one by one.
ghost use Rattle.std.specs.Prelude.{◌≡◌, ◌≢◌};
ghost use Rattle.qtree_c.specs.answers.Nodes.{IsClass, IsNode};
ghost use Rattle.qtree_c.specs.device.Calls.{Calls};

use crate::abi::c_class_view::CClassView;
use crate::abi::c_device::CDevice;
use crate::abi::c_node_view::CNodeView;
use crate::abi::codes::{DONE, IS_CLOSED, NOTHING};
use q_device::Device;

/// A qdisc, by its index from 0 in the order in which `tc qdisc show` lists them.
#[unsafe(no_mangle)]
pub extern "C" fn qtree_node(device: &mut CDevice, index: usize, view: &mut CNodeView) -> u32
    ensures node { Calls (IsNode index result view.old view.new) result device.old.held.device device.new.held.device }
    ensures same { device.new.held.device ≡ device.old.held.device }
    ensures last { device.new.held.last ≡ device.old.held.last }
    ensures kept { result ≢ 0 → view.new ≡ view.old }
{
    if !device.is_open() {
        return IS_CLOSED;
    }
    node_at(&device.held.lend().device, index, view)
}

/// A class, by the index of its qdisc in that order, and by its own among that qdisc's classes.
#[unsafe(no_mangle)]
pub extern "C" fn qtree_class(
    device: &mut CDevice,
    index: usize,
    which: usize,
    view: &mut CClassView,
) -> u32
    ensures class { Calls (IsClass index which result view.old view.new) result device.old.held.device device.new.held.device }
    ensures same { device.new.held.device ≡ device.old.held.device }
    ensures last { device.new.held.last ≡ device.old.held.last }
    ensures kept { result ≢ 0 → view.new ≡ view.old }
{
    if !device.is_open() {
        return IS_CLOSED;
    }
    class_at(&device.held.lend().device, index, which, view)
}

/// A qdisc of an open device.
fn node_at(device: &Device, index: usize, view: &mut CNodeView) -> u32
    ensures node { IsNode index result view.old view.new device.now device.now }
    ensures kept { result ≢ 0 → view.new ≡ view.old }
{
    let tree = device.tree();
    match tree.node(index) {
        Some(node) => {
            *view = CNodeView::of(&node, tree.flows(index));
            DONE
        }
        None => NOTHING,
    }
}

/// A class of an open device.
fn class_at(device: &Device, index: usize, which: usize, view: &mut CClassView) -> u32
    ensures class { IsClass index which result view.old view.new device.now device.now }
    ensures kept { result ≢ 0 → view.new ≡ view.old }
{
    match device.tree().class(index, which) {
        Some(class) => {
            *view = CClassView::of(&class);
            DONE
        }
        None => NOTHING,
    }
}
