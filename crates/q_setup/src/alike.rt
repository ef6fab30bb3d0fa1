//! Whether two trees are the same, but for what they hold and counted, and for numbers that a file leaves to the device.
ghost use Rattle.std.specs.Prelude.{◌≡◌, ◌≤◌, ◌^◌, true, length, map};
ghost use Rattle.std.specs.List.{AllByRecursion, list_any};
ghost use Rattle.q_model.specs.Views.{class_views, filter_views};
ghost use Rattle.q_model.specs.declared.place.Place.TheVariants as place;
ghost use Rattle.q_tree.specs.answers.Showing.{standing};
ghost use Rattle.q_setup.specs.Naming.{same_handle, same_place};
ghost use Rattle.q_setup.specs.Alike.{AreAlike, IsAmong, IsLike, IsShort, entries, entry, has_classes, quantum_of, same_share};

use crate::naming::{same_handle, same_place};
use q_model::{
    ClassKind, ClassView, FilterKeys, FilterView, IpPrefix, NodeView, Protocol, QdiscView,
};
use q_tree::laws::tree_is_lawful;
use q_tree::{NodeRef, Tree};

/// The most classes and filters of a node, with one more.
const MOST_LISTED: usize = 0x1_0001;

/// Whether each node of one tree has its like in the other, both ways.
pub(crate) fn are_alike(keep: bool, wanted: &Tree, tree: &Tree) -> bool
    ensures alike { result ≡ true → AreAlike keep (entries wanted.now.tree) (entries tree.now.tree) }
    ensures told { AreAlike keep (entries wanted.now.tree) (entries tree.now.tree) → result ≡ true }
{
    all_are_short(wanted);
    all_are_short(tree);
    all_are_there(keep, wanted, tree) && none_is_besides(keep, wanted, tree)
}

// No node of a tree has more classes or filters than are gone over, since a tree is lawful. It does nothing.
fn all_are_short(tree: &Tree)
    ensures { AllByRecursion IsShort (entries tree.now.tree) }
{
    tree_is_lawful(tree);
}

/// Whether each node of the wanted tree is in the other.
fn all_are_there(keep: bool, wanted: &Tree, tree: &Tree) -> bool
    requires wanted { AllByRecursion IsShort (entries wanted.now.tree) }
    requires tree { AllByRecursion IsShort (entries tree.now.tree) }
    ensures alike { result ≡ true → AllByRecursion (λ x. IsAmong (IsLike keep x) (entries tree.now.tree)) (entries wanted.now.tree) }
    ensures told { AllByRecursion (λ x. IsAmong (IsLike keep x) (entries tree.now.tree)) (entries wanted.now.tree) → result ≡ true }
{
    let mut nodes = wanted.nodes();
    while let Some(node) = nodes.next() {
        if !is_there(keep, &node, tree) {
            return false;
        }
    }
    true
}

fn is_there(keep: bool, wanted: &NodeRef<'_>, tree: &Tree) -> bool
    requires wanted { IsShort (entry wanted.now) }
    requires tree { AllByRecursion IsShort (entries tree.now.tree) }
    ensures alike { result ≡ true → IsAmong (IsLike keep (entry wanted.now)) (entries tree.now.tree) }
    ensures told { IsAmong (IsLike keep (entry wanted.now)) (entries tree.now.tree) → result ≡ true }
{
    let mut nodes = tree.nodes();
    while let Some(node) = nodes.next() {
        if same_node(keep, wanted, &node) {
            return true;
        }
    }
    false
}

/// Whether each node of a tree is in the wanted one.
fn none_is_besides(keep: bool, wanted: &Tree, tree: &Tree) -> bool
    requires wanted { AllByRecursion IsShort (entries wanted.now.tree) }
    requires tree { AllByRecursion IsShort (entries tree.now.tree) }
    ensures alike { result ≡ true → AllByRecursion (λ y. IsAmong (λ x. IsLike keep x y) (entries wanted.now.tree)) (entries tree.now.tree) }
    ensures told { AllByRecursion (λ y. IsAmong (λ x. IsLike keep x y) (entries wanted.now.tree)) (entries tree.now.tree) → result ≡ true }
{
    let mut nodes = tree.nodes();
    while let Some(node) = nodes.next() {
        if !is_wanted(keep, wanted, &node) {
            return false;
        }
    }
    true
}

fn is_wanted(keep: bool, wanted: &Tree, node: &NodeRef<'_>) -> bool
    requires wanted { AllByRecursion IsShort (entries wanted.now.tree) }
    requires node { IsShort (entry node.now) }
    ensures alike { result ≡ true → IsAmong (λ x. IsLike keep x (entry node.now)) (entries wanted.now.tree) }
    ensures told { IsAmong (λ x. IsLike keep x (entry node.now)) (entries wanted.now.tree) → result ≡ true }
{
    let mut nodes = wanted.nodes();
    while let Some(other) = nodes.next() {
        if same_node(keep, &other, node) {
            return true;
        }
    }
    false
}

/// Whether two nodes are the same: their handles and places, their kinds with all settings, their classes and their filters.
fn same_node(keep: bool, wanted: &NodeRef<'_>, node: &NodeRef<'_>) -> bool
    requires wanted { IsShort (entry wanted.now) }
    requires node { IsShort (entry node.now) }
    ensures alike { result ≡ true → IsLike keep (entry wanted.now) (entry node.now) }
    ensures told { IsLike keep (entry wanted.now) (entry node.now) → result ≡ true }
{
    if !same_view(keep, &wanted.view(), &node.view()) {
        return false;
    }
    same_filters(wanted, node) && has_classes(wanted, node) && has_classes(node, wanted)
}

fn same_view(keep: bool, wanted: &NodeView, node: &NodeView) -> bool
    ensures handle { result ≡ true → same_handle keep wanted.now.handle node.now.handle ≡ true }
    ensures place { result ≡ true → same_place keep wanted.now.place node.now.place ≡ true }
    ensures qdisc { result ≡ true → wanted.now.qdisc ≡ node.now.qdisc }
    ensures told { same_handle keep wanted.now.handle node.now.handle ≡ true → same_place keep wanted.now.place node.now.place ≡ true → wanted.now.qdisc ≡ node.now.qdisc → result ≡ true }
{
    if !same_handle(keep, wanted.handle, node.handle) {
        return false;
    }
    if !same_place(keep, wanted.place, node.place) {
        return false;
    }
    same_qdisc(&wanted.qdisc, &node.qdisc)
}

fn same_qdisc(wanted: &QdiscView, qdisc: &QdiscView) -> bool
    ensures alike { result ≡ true → wanted.now ≡ qdisc.now }
    ensures told { wanted.now ≡ qdisc.now → result ≡ true }
{
    *wanted == *qdisc
}

/// Whether they have the same filters in the same order.
fn same_filters(wanted: &NodeRef<'_>, node: &NodeRef<'_>) -> bool
    requires { length (filter_views wanted.now.1) ≤ 2 ^ 16 }
    ensures alike { result ≡ true → filter_views wanted.now.1 ≡ filter_views node.now.1 }
    ensures told { filter_views wanted.now.1 ≡ filter_views node.now.1 → result ≡ true }
{
    for j in 0..MOST_LISTED {
        let (wanted, filter) = (wanted.filter(j), node.filter(j));
        if !same_filter_if_any(&wanted, &filter) {
            return false;
        }
        if wanted.is_none() {
            return true;
        }
    }
    false
}

fn same_filter_if_any(wanted: &Option<FilterView>, filter: &Option<FilterView>) -> bool
    ensures alike { result ≡ true → wanted.now ≡ filter.now }
    ensures told { wanted.now ≡ filter.now → result ≡ true }
{
    match (wanted, filter) {
        (Some(wanted), Some(filter)) => return same_filter(wanted, filter),
        (None, None) => return true,
        _ => return false,
    }
}

fn same_filter(wanted: &FilterView, filter: &FilterView) -> bool
    ensures alike { result ≡ true → wanted.now ≡ filter.now }
    ensures told { wanted.now ≡ filter.now → result ≡ true }
{
    let (a, b) = (&wanted.filter, &filter.filter);
    if wanted.parent != filter.parent || a.prio != b.prio || a.minor != b.minor {
        return false;
    }
    same_protocol(a.protocol, b.protocol) && same_keys(&a.keys, &b.keys)
}

fn same_protocol(wanted: Protocol, protocol: Protocol) -> bool
    ensures alike { result ≡ true → wanted ≡ protocol }
    ensures told { wanted ≡ protocol → result ≡ true }
{
    wanted == protocol
}

fn same_keys(wanted: &FilterKeys, keys: &FilterKeys) -> bool
    ensures alike { result ≡ true → wanted.now ≡ keys.now }
    ensures told { wanted.now ≡ keys.now → result ≡ true }
{
    if !same_prefix(wanted.src_ip, keys.src_ip) {
        return false;
    }
    if !same_prefix(wanted.dst_ip, keys.dst_ip) {
        return false;
    }
    if !same_port(wanted.src_port, keys.src_port) {
        return false;
    }
    if !same_port(wanted.dst_port, keys.dst_port) {
        return false;
    }
    same_proto(wanted.ip_proto, keys.ip_proto)
}

fn same_prefix(wanted: Option<IpPrefix>, prefix: Option<IpPrefix>) -> bool
    ensures alike { result ≡ true → wanted ≡ prefix }
    ensures told { wanted ≡ prefix → result ≡ true }
{
    wanted == prefix
}

fn same_port(wanted: Option<u16>, port: Option<u16>) -> bool
    ensures alike { result ≡ true → wanted ≡ port }
    ensures told { wanted ≡ port → result ≡ true }
{
    wanted == port
}

fn same_proto(wanted: Option<u8>, proto: Option<u8>) -> bool
    ensures alike { result ≡ true → wanted ≡ proto }
    ensures told { wanted ≡ proto → result ≡ true }
{
    wanted == proto
}

/// Whether one has all classes of the other, with their quanta.
fn has_classes(of: &NodeRef<'_>, node: &NodeRef<'_>) -> bool
    requires of { length (class_views of.now.1) ≤ 2 ^ 16 }
    requires node { length (class_views node.now.1) ≤ 2 ^ 16 }
    ensures { result ≡ has_classes (class_views of.now.1) (class_views node.now.1) }
{
    for j in 0..MOST_LISTED {
        let Some(class) = of.class(j) else {
            return true;
        };
        if !has_class(&class, node) {
            return false;
        }
    }
    false
}

fn has_class(class: &ClassView, node: &NodeRef<'_>) -> bool
    requires { length (class_views node.now.1) ≤ 2 ^ 16 }
    ensures { result ≡ list_any (same_share class.now) (class_views node.now.1) }
{
    for j in 0..MOST_LISTED {
        let Some(other) = node.class(j) else {
            return false;
        };
        if same_share(class, &other) {
            return true;
        }
    }
    false
}

fn same_share(class: &ClassView, other: &ClassView) -> bool
    ensures { result ≡ same_share class.now other.now }
{
    class.class.minor == other.class.minor && quantum_of(&class.kind) == quantum_of(&other.kind)
}

/// The quantum of a class of a drr; no other has one.
pub(crate) fn quantum_of(kind: &ClassKind) -> Option<u32>
    ensures { result ≡ quantum_of kind.now }
{
    match *kind {
        ClassKind::Drr { quantum, .. } => return Some(quantum),
        ClassKind::Prio => return None,
        ClassKind::Tbf => return None,
    }
}
