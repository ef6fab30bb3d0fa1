ghost use Rattle.std.specs.Prelude.{◌≡◌};
ghost use Rattle.q_model.specs.Refusal.{refusal_number, refusal_name};

use std::fmt;
use thiserror::Error;

/// Why a command was not done. Nothing has changed then.
#[derive(Clone, Copy, PartialEq, Eq, Debug, Error)]
pub enum Refusal {
    /// No qdisc has the major number of the parent, or a class line names a parent that is not its class's qdisc.
    NoParent,
    /// A qdisc, or the class, is there already.
    Exists,
    /// No qdisc is there that could be changed, or place and handle name two.
    NoQdisc,
    /// Another qdisc has the handle.
    HandleTaken,
    /// The parent is a pfifo, bfifo or fq_codel, or has no filters.
    NotClassful,
    /// The parent has no such class.
    NoClass,
    /// A filter names the class.
    Busy,
    /// The qdisc is of another kind, or has other flows, or its classes come with it.
    CannotChange,
    /// A qdisc would be at a depth above 8.
    TooDeep,
    /// There would be more than 256 qdiscs, or filters of one qdisc.
    TooMany,
    /// The burst would be below both the present one and the mtu.
    SmallBurst,
    /// No filter has that priority.
    NoFilter,
    /// An allocation failed.
    Memory,
}

impl Refusal {
    /// Its number, as reports write it.
    pub fn number(self) -> u8
        ensures { result ≡ refusal_number self }
    {
        match self {
            Refusal::NoParent => 10,
            Refusal::Exists => 11,
            Refusal::NoQdisc => 12,
            Refusal::HandleTaken => 13,
            Refusal::NotClassful => 14,
            Refusal::NoClass => 15,
            Refusal::Busy => 16,
            Refusal::CannotChange => 17,
            Refusal::TooDeep => 18,
            Refusal::TooMany => 19,
            Refusal::SmallBurst => 20,
            Refusal::NoFilter => 21,
            Refusal::Memory => 90,
        }
    }

    /// Its name, as reports write it.
    pub fn name(self) -> &'static str
        ensures { result.now ≡ refusal_name self }
    {
        match self {
            Refusal::NoParent => "NoParent",
            Refusal::Exists => "Exists",
            Refusal::NoQdisc => "NoQdisc",
            Refusal::HandleTaken => "HandleTaken",
            Refusal::NotClassful => "NotClassful",
            Refusal::NoClass => "NoClass",
            Refusal::Busy => "Busy",
            Refusal::CannotChange => "CannotChange",
            Refusal::TooDeep => "TooDeep",
            Refusal::TooMany => "TooMany",
            Refusal::SmallBurst => "SmallBurst",
            Refusal::NoFilter => "NoFilter",
            Refusal::Memory => "Memory",
        }
    }
}

impl fmt::Display for Refusal {
    ghost use Rattle.std.specs.Prelude.{Some};
    ghost use Rattle.q_model.specs.Refusal.{refusal_text};

    ghost output = { λ refusal. Some (refusal_text refusal) };

    fn fmt<W: fmt::Write>(&self, f: &mut fmt::Formatter<W>) -> fmt::Result {
        write!(f, "refused {} {}", self.number(), self.name())
    }
}
