//! Each end of a ring may go to a thread of its own.
ghost use Rattle.std.specs.Prelude.{◌≡◌};

use q_ports::{Outlet, Port};

/// The ends as they were. It is here for its proof that each box is `Send`, on which the header's rule for threads rests.
pub fn sent_apart(port: Box<Port>, outlet: Box<Outlet>) -> (Box<Port>, Box<Outlet>)
    ensures { (result.0.value ≡ port.value) × (result.1.value ≡ outlet.value) }
{
    (sent(port), sent(outlet))
}

/// The value as it was.
fn sent<T: Send>(value: T) -> T
    ensures { result ≡ value }
{
    value
}
