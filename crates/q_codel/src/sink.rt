ghost use Rattle.std.specs.Prelude.{◌≤◌, [], ◌∷◌};
ghost use Rattle.q_codel.specs.Losses.{SinkState, IsTold};

use q_packet::{Cause, Packet};

/// Where lost packets go, in the order in which they are lost.
///
/// `state` is what it has taken so far, and how many more it can take. `keeps` says what a call leaves alone, as in
/// [`Queue`](crate::Queue).
pub trait Sink {
    ghost state: { Self → SinkState };

    ghost keeps: { Self → Self → Type 0 };

    /// Notes that `packet` is lost, and why.
    fn lost(&mut self, packet: Packet, cause: Cause)
        requires { 1 ≤ (state self.old).room }
        ensures told { IsTold (record { packet = packet; cause = cause } ∷ []) (state self.old) (state self.new) }
        ensures kept { keeps self.old self.new };

    ghost keeps_same: { (s : Self) → keeps s s };

    ghost keeps_on: { (s : Self) (t : Self) (u : Self) → keeps s t → keeps t u → keeps s u };
}
