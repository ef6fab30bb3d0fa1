ghost use Rattle.std.specs.Prelude.{◌≡◌};
ghost use Rattle.q_setup.specs.Effects.{has_effect};

use q_model::Command;

/// What a command does to qdiscs, classes or filters.
#[derive(Clone, Copy)]
pub(crate) enum Effect {
    Adds,
    Changes,
    Deletes,
}

impl Effect {
    /// Whether a command does this.
    pub(crate) fn is_of(self, command: &Command) -> bool
        ensures { result ≡ has_effect self command.now }
    {
        match command {
            Command::QdiscAdd { .. } | Command::ClassAdd { .. } | Command::FilterAdd { .. } => {
                matches!(self, Effect::Adds)
            }
            Command::QdiscChange { .. } | Command::ClassChange { .. } => {
                matches!(self, Effect::Changes)
            }
            Command::QdiscDel { .. } | Command::ClassDel { .. } | Command::FilterDel { .. } => {
                matches!(self, Effect::Deletes)
            }
        }
    }
}
