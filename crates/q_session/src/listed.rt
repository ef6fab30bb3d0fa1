//! What show lists of the nodes of a tree: their classes, or their filters.
ghost use Rattle.std.specs.Prelude.{◌≡◌, ◌≤◌, List, ℕ, length, slice_get};
ghost use Rattle.q_model.specs.Node.{Node};
ghost use Rattle.q_model.specs.Tally.{Counts};
ghost use Rattle.q_model.specs.Views.{class_views, filter_views};
ghost use Rattle.q_script_semantics.specs.Text.{class_line, filter_line};
ghost use Rattle.q_session.specs.Shown.{IsOfLawful, counted};

use q_model::{ClassView, FilterView};
use q_show::{Text, class_text, filter_text};
use q_tree::NodeRef;

/// One of those that show lists of a node.
pub trait Listed: Copy {
    /// All of them at a node.
    ghost of_node: { Node Counts → List Self };

    /// What is printed of one.
    ghost line: { Self → List ℕ };

    /// The `j`-th of them.
    fn find(node: &NodeRef<'_>, j: usize) -> Option<Self>
        ensures found { result ≡ slice_get (of_node (counted node.now.1)) j }
        ensures few { IsOfLawful node.now.1 → length (of_node (counted node.now.1)) ≤ 256 };

    /// What is printed of it.
    fn text(&self) -> Text
        ensures { result ≡ line self.now };
}

impl Listed for ClassView {
    ghost of_node = { class_views };

    ghost line = { class_line };

    fn find(node: &NodeRef<'_>, j: usize) -> Option<ClassView> {
        node.class(j)
    }

    fn text(&self) -> Text {
        class_text(self)
    }
}

impl Listed for FilterView {
    ghost of_node = { filter_views };

    ghost line = { filter_line };

    fn find(node: &NodeRef<'_>, j: usize) -> Option<FilterView> {
        node.filter(j)
    }

    fn text(&self) -> Text {
        filter_text(self)
    }
}
