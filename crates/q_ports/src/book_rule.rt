use logbook::{Gain, Plain, Play, Rule};
use q_device::Row;

/// The rule of a book of rows: each is balanced, and no counter of it is lower than in the one before.
pub struct BookRule;

impl Rule<Row, u64> for BookRule {
    ghost use Rattle.std.specs.Prelude.{[]};
    ghost use base.Fml.{ftrue};
    ghost use Rattle.q_ports.specs.Rules.{IsKept};

    ghost holds = { λ cells log. IsKept cells log };

    ghost first = { [] };

    ghost hinted = { λ n log. Unit {0} };

    ghost shows = { λ log. [] };

    ghost keeps = { λ names log. ftrue };

    ghost moves = { λ ask before after answer. Unit {0} };
}

/// Nothing is traded.
pub struct Nothing;

impl Gain<Row, u64> for Nothing {
    ghost use base.Fml.{ftrue};

    ghost after = { λ names about answer. ftrue };
}

/// A step that adds a row.
pub struct Add;

impl Play<Row, u64> for Add {
    ghost use Rattle.q_ports.specs.Rules.{Adds};

    ghost then = { Adds };
}

/// What the step asks for: the row.
impl Plain<Row, Row, u64> for Add {
    ghost use Rattle.std.specs.Prelude.{None};

    ghost ask = { λ row. row };

    ghost state = { λ row. None };
}
