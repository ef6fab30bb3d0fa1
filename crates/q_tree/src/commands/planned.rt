use crate::answers::find::Path;
use crate::commands::edit::Edit;

/// An edit that was planned, with the path to the node that it changes.
pub(crate) struct Planned {
    pub(crate) path: Path,
    pub(crate) edit: Edit,
}
