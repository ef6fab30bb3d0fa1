ghost use Rattle.std.specs.Prelude.{◌≡◌, option_copied, option_map};
ghost use Rattle.q_model.specs.Find.{class_path, is_explicit, path_of, place_path};
ghost use Rattle.q_model.specs.Node.{shape};
ghost use Rattle.q_model.specs.QdiscCommands.{explicit_at, target};
ghost use Rattle.q_tree.specs.answers.Finding.{qdisc_with, reached};

use crate::answers::find::Path;
use crate::commands::qdiscs::Qdiscs;
use crate::node::Node;
use q_model::{ClassId, Handle, Place};

impl<'a> Qdiscs<'a> {
    /// The qdisc with this handle.
    pub(crate) fn find(&self, handle: Handle) -> Option<&'a Node>
        ensures { option_copied result ≡ qdisc_with handle self.now.root.now }
    {
        let path = self.path_to(handle)?;
        self.root.at(&path)
    }

    /// The qdisc with this handle, and the path to it (tc(8), "NAMING").
    pub(crate) fn qdisc(&self, handle: Handle) -> Option<(Path, &'a Node)>
        ensures { option_map (λ x. (x.0.items, x.1.now)) result ≡ reached self.now.root.now (path_of handle (shape self.now.root.now)) }
    {
        self.reached(self.path_to(handle))
    }

    /// The qdisc that a line names by its place, its handle or both, which then name the same one, and the path to it. An implicit
    /// leaf is none.
    pub(crate) fn target(
        &self,
        place: Option<Place>,
        handle: Option<Handle>,
    ) -> Option<(Path, &'a Node)>
        ensures { option_map (λ x. (x.0.items, x.1.now)) result ≡ reached self.now.root.now (target place handle (shape self.now.root.now)) }
    {
        let Some(place) = place else {
            return self.qdisc(handle?);
        };
        let Some(handle) = handle else {
            return self.reached(self.explicit_at(place));
        };
        let (path, node) = self.reached(self.explicit_at(place))?;
        if node.handle == Some(handle) {
            Some((path, node))
        } else {
            None
        }
    }

    // The node at the end of a path, with the path.
    fn reached(&self, path: Option<Path>) -> Option<(Path, &'a Node)>
        ensures { option_map (λ x. (x.0.items, x.1.now)) result ≡ reached self.now.root.now (option_map (λ p. p.items) path) }
    {
        let path = path?;
        let node = self.root.at(&path)?;
        Some((path, node))
    }

    // The path to the qdisc in this place, where it is no implicit leaf: those have no handle.
    fn explicit_at(&self, place: Place) -> Option<Path>
        ensures { option_map (λ p. p.items) result ≡ explicit_at (Some place) (shape self.now.root.now) }
    {
        let path = self.place_path(place)?;
        if self.is_explicit(&path) {
            Some(path)
        } else {
            None
        }
    }

    /// Whether a qdisc with a handle is at the end of this path.
    pub(crate) fn is_explicit(&self, path: &[usize]) -> bool
        ensures { result ≡ is_explicit path.now self.now.root.now }
    {
        let Some(node) = self.root.at(path) else {
            return false;
        };
        node.handle.is_some()
    }

    /// The path to a place below the device.
    pub(crate) fn place_path(&self, place: Place) -> Option<Path>
        ensures { option_map (λ p. p.items) result ≡ place_path place self.now.root.now }
    {
        match place {
            Place::Top => return None,
            Place::Root => return Some(Path::new()),
            Place::Class(class) => return self.class_path(class),
        }
    }

    /// The path to a class: that to its qdisc, and the child there.
    pub(crate) fn class_path(&self, class: ClassId) -> Option<Path>
        ensures { option_map (λ p. p.items) result ≡ class_path class self.now.root.now }
    {
        let mut path = self.path_to(class.major)?;
        let place = self.root.at(&path)?.class_place(class.minor)?;
        path.push(place);
        Some(path)
    }

    // The path to the qdisc with this handle.
    fn path_to(&self, handle: Handle) -> Option<Path>
        ensures { option_map (λ p. p.items) result ≡ path_of handle self.now.root.now }
    {
        self.handles.path_to(handle)
    }
}
