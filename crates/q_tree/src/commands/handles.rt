ghost use Rattle.std.specs.Prelude.{◌≡◌, ◌≤◌, ◌+◌, [], OnErr, OnOk, length, map, option_map, true};
ghost use Rattle.std.specs.List.{fold};
ghost use Rattle.indexmap.specs.IndexMap.{spare};
ghost use Rattle.q_invariants.specs.Kept.{AreApart};
ghost use Rattle.q_model.specs.Find.{addresses, count_nodes, depth};
ghost use Rattle.q_model.specs.Numbers.{IsHandle};
ghost use Rattle.q_model.specs.Refusals.{most_nodes};
ghost use Rattle.q_tree.specs.commands.Editing.{TakesMemory, adds_nodes};
ghost use Rattle.q_tree.specs.commands.Index.{added, addresses_beneath, free_among, has_among, listed, own_address, path_among, under};

use crate::answers::find::Path;
use crate::commands::counting::MOST_NODES;
use crate::commands::edit::Edit;
use crate::node::Node;
use indexmap::IndexMap;
use q_model::Handle;
use std::alloc::{AllocError, Global};
use std::marker::Model;

/// The path to each handle below the root, in the order of show.
type Ways = IndexMap<u16, Path>;

/// The most handles below a root.
const MOST_BENEATH: usize = MOST_NODES - 1;

/// The least major number that a qdisc gets which is added without a handle.
const FIRST_FREE: u16 = 0x8001;

/// An index of the handles of a tree, with the paths to their qdiscs.
///
/// A contract sees the handles with their paths, in the order of show, and for how many below the root there is room.
#[derive(Drop)]
pub(crate) struct Handles {
    /// That of the root, which needs no room: no step leads there.
    root: Option<Handle>,
    beneath: Ways,
}

impl Model for Handles {
    ghost use Rattle.q_tree.specs.commands.Index.{Index, index_code};

    ghost Value = { Index };

    ghost coded = { index_code };

    ghost use Rattle.q_tree.specs.commands.IndexSeen.{index_seen};

    ghost view = { index_seen };
}

impl Handles {
    /// No handles, and no room for any below a root. It takes no memory.
    pub(crate) fn new(alloc: Global) -> Handles
        ensures { result.addresses ≡ [] }
    {
        Handles {
            root: None,
            beneath: IndexMap::new(alloc),
        }
    }

    /// The memory of the index, which is that of the tree.
    pub(crate) fn allocator(&self) -> Global {
        *self.beneath.allocator()
    }

    /// Makes room for the handles of every tree, where this edit brings nodes below another.
    ///
    /// # Errors
    ///
    /// `AllocError` if an allocation fails.
    pub(crate) fn make_room_for(&mut self, edit: &Edit) -> Result<(), AllocError>
        ensures same { self.new.addresses ≡ self.old.addresses }
        ensures more { self.old.room ≤ self.new.room }
        ensures ok { OnOk result (adds_nodes edit.now ≡ true → most_nodes ≤ self.new.room + 1) }
        ensures memory { OnErr result (TakesMemory edit.now) }
    {
        if !edit.adds_nodes() {
            return Ok(());
        }
        self.make_room()
    }

    // Makes room for the handles of every tree.
    fn make_room(&mut self) -> Result<(), AllocError>
        ensures same { self.new.addresses ≡ self.old.addresses }
        ensures more { self.old.room ≤ self.new.room }
        ensures ok { OnOk result (most_nodes ≤ self.new.room + 1) }
    {
        let missing = MOST_BENEATH.saturating_sub(self.beneath.len());
        self.beneath.reserve(missing)
    }

    /// The path to the qdisc with this handle.
    pub(crate) fn path_to(&self, handle: Handle) -> Option<Path>
        ensures { option_map (λ p. p.items) result ≡ path_among handle self.now.addresses }
    {
        if self.root == Some(handle) {
            return Some(Path::new());
        }
        let path = self.beneath.get(&handle.major())?;
        Some(copied(path))
    }

    /// Whether a qdisc has this handle.
    pub(crate) fn has(&self, handle: Handle) -> bool
        ensures { result ≡ has_among handle self.now.addresses }
    {
        if self.root == Some(handle) {
            return true;
        }
        self.beneath.contains_key(&handle.major())
    }

    /// The least major number from 8001 (hexadecimal) on that no qdisc has.
    pub(crate) fn least_free(&self) -> Handle
        requires { length self.now.addresses ≤ most_nodes }
        ensures { result ≡ free_among self.now.addresses }
    {
        let count = self.len() as u16;
        for k in 0..count {
            let handle = numbered(FIRST_FREE + k);
            if !self.has(handle) {
                return handle;
            }
        }
        numbered(FIRST_FREE + count)
    }

    // How many handles there are.
    fn len(&self) -> usize
        requires { length self.now.addresses ≤ most_nodes }
        ensures { result ≡ length self.now.addresses }
    {
        let beneath = self.beneath.len();
        if self.root.is_some() {
            beneath + 1
        } else {
            beneath
        }
    }

    /// Makes it the index of this tree. It takes no memory.
    pub(crate) fn renew(&mut self, root: &Node)
        requires levels { depth root.now ≤ 8 }
        requires room { count_nodes root.now ≤ self.old.room + 1 }
        requires apart { AreApart root.now }
        ensures same { self.new.addresses ≡ addresses root.now }
        ensures room { self.old.room ≤ self.new.room }
    {
        self.root = root.handle;
        self.beneath.clear();
        let mut path = Path::new();
        add_beneath(&mut self.beneath, root, &mut path);
    }
}

// Adds the handles below a node, to which this path leads.
fn add_beneath(ways: &mut Ways, node: &Node, path: &mut Path)
    requires levels { length path.old.items + depth node.now ≤ 8 }
    requires room { length (addresses_beneath node.now) ≤ spare ways.old }
    ensures added { listed ways.new.entries ≡ fold added (listed ways.old.entries) (map (under path.old.items) (addresses_beneath node.now)) }
    ensures room { spare ways.old ≤ spare ways.new + length (addresses_beneath node.now) }
    ensures way { path.new.items ≡ path.old.items }
{
    for (place, child) in node.children().iter().enumerate() {
        path.push(place);
        add_own(ways, child, path);
        add_beneath(ways, child, path);
        path.pop();
    }
}

// Adds the handle of the node itself, if it has one.
fn add_own(ways: &mut Ways, node: &Node, path: &Path)
    requires { length (own_address path.now.items node.now.own.handle) ≤ spare ways.old }
    ensures added { listed ways.new.entries ≡ fold added (listed ways.old.entries) (own_address path.now.items node.now.own.handle) }
    ensures room { spare ways.old ≤ spare ways.new + length (own_address path.now.items node.now.own.handle) }
{
    let Some(handle) = node.handle else {
        return;
    };
    let Ok(_) = ways.insert(handle.major(), copied(path)) else {
        unreachable!()
    };
}

// The same path again.
fn copied(path: &Path) -> Path
    ensures { result.items ≡ path.now.items }
{
    let mut copy = Path::new();
    let Ok(()) = copy.try_extend_from_slice(path.as_slice()) else {
        unreachable!()
    };
    copy
}

// The handle with this major number.
fn numbered(major: u16) -> Handle
    requires { IsHandle major }
    ensures { result ≡ major }
{
    match Handle::new(major) {
        Some(handle) => handle,
        None => unreachable!(),
    }
}
