//! What commands do, counted.
ghost use Rattle.std.specs.Prelude.{◌≡◌};
ghost use Rattle.q_setup.specs.Effects.{count};

use crate::effect::Effect;
use q_model::Command;

/// How many commands have this effect.
pub(crate) fn count(effect: Effect, commands: &[Command]) -> u64
    ensures { result ≡ count effect commands.now }
{
    let mut found = 0;
    for command in commands {
        if effect.is_of(command) {
            found += 1;
        }
    }
    found
}
