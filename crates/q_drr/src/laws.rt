//! Laws of the definitions that the contracts cite. Each function does nothing: its contract is the law. [`take_by_turns`] alone
//! does something: it leads from turns to a whole take.
ghost use Rattle.q_drr.specs.Changes.{EmptyIsLawful, AddedIsLawful, RemovedIsLawful, WokenIsLawful, AsleepIsLawful, WithQuantumIsLawful, TurnedIsLawful, ServedIsLawful};
ghost use Rattle.q_drr.specs.Stretch.{EachSendsItsShare, GrantsAreCounted, TurnsAreCounted, GrantsAreEven, SharesAreFair};
ghost use Rattle.q_drr.specs.Turns.{TakesAreTurns, LeastNeedIsMet, ChosenIsMet, TurnsGrantWhereShort, TakesGrantWhereShort};

pub use crate::take::{Met, take_by_turns};

/// Over any interval of turns each class that is active sends, in bytes, its grants times its quantum and the deficit that
/// it had at first, less the deficit that it has at last.
pub fn each_sends_its_share()
    ensures { EachSendsItsShare }
{}

/// Over any interval of turns the bytes granted to a class that is active grow by its quantum with each of its grants, and
/// the count of turns by one with each turn, of whichever class. Both stay at 2^64 - 1 once they are there: below that,
/// `granted` is the bytes granted since the class became active, and `turns` the number of turns.
pub fn grants_are_counted()
    ensures granted { GrantsAreCounted }
    ensures turns { TurnsAreCounted }
{}

/// Over any interval of turns the grants of two active classes differ by one at most: a class that was before the other
/// and ends behind it has one more, and classes that have kept their order have equally many.
pub fn grants_are_even()
    ensures { GrantsAreEven }
{}

/// Over any interval of turns the bytes that two active classes send are to each other as their quanta: they differ, each
/// times the other's quantum, by less than three products of the quanta and a longest packet times their sum.
pub fn shares_are_fair()
    ensures { SharesAreFair }
{}

/// A whole take is a list of turns, each for the head that the class in front shows. They grant to each class that
/// is before the one that is met once more than to it and to those behind it, and only the class that is met sends.
/// So what holds of turns holds of takes.
pub fn takes_are_turns()
    ensures { TakesAreTurns }
{}

/// The class that a take meets needs no more grants than any other, and fewer than each that is before it.
pub fn least_need_is_met()
    ensures least { LeastNeedIsMet }
    ensures met { ChosenIsMet }
{}

/// Just before a class is granted its deficit is below the length of the head that it shows: at a turn, and at the last
/// of its grants in a whole take.
pub fn grants_come_where_short()
    ensures turn { TurnsGrantWhereShort }
    ensures take { TakesGrantWhereShort }
{}

/// Every change of the list keeps what holds of every list, `IsLawful`.
pub fn changes_stay_lawful()
    ensures empty { EmptyIsLawful }
    ensures added { AddedIsLawful }
    ensures removed { RemovedIsLawful }
    ensures woken { WokenIsLawful }
    ensures asleep { AsleepIsLawful }
    ensures with_quantum { WithQuantumIsLawful }
    ensures turned { TurnedIsLawful }
    ensures served { ServedIsLawful }
{}
