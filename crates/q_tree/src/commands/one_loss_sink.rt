use q_codel::{Loss, Sink};
use q_packet::{Cause, Packet};

/// A sink with room for one loss, for the commands that lose nothing.
#[derive(Drop)]
pub(crate) struct OneLossSink {
    pub(crate) told: Option<Loss>,
}

impl Sink for OneLossSink {
    ghost use Rattle.std.specs.Prelude.{[], ◌∷◌};
    ghost use Rattle.std.specs.Option.{option_map_or};

    ghost state = { λ s. record { losses = option_map_or (λ l. l ∷ []) s.told []; room = option_map_or (λ l. 0) s.told 1 } };

    ghost keeps = { λ s t. Unit {0} };

    fn lost(&mut self, packet: Packet, cause: Cause) {
        self.told = Some(Loss { packet, cause });
    }

    ghost keeps_same = { λ s. tt };

    ghost keeps_on = { λ s t u st tu. tt };
}
