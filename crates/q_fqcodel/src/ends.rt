ghost use Rattle.std.specs.Prelude.{◌≡◌};
ghost use Rattle.q_fqcodel.specs.Links.{no_ends};

/// The ends of a list of flows, by their indices. They are read only where `count` is not 0.
#[derive(Clone, Copy, Debug)]
pub(crate) struct Ends {
    pub head: u32,
    pub tail: u32,
    pub count: u32,
}

impl Ends {
    /// A list without flows.
    pub(crate) fn none() -> Ends
        ensures { result ≡ no_ends }
    {
        Ends {
            head: 0,
            tail: 0,
            count: 0,
        }
    }
}
