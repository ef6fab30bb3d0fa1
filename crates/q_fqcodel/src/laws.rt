//! Laws of the definitions that the calls of [`FqCodel`](crate::FqCodel) equal.
//!
//! Each function does nothing. Its contract is a law, stated in `specs/Laws.antt`, `specs/NewFlow.antt` and `specs/Order.antt`, for every state, packet and time.
ghost use Rattle.q_fqcodel.specs.Laws.{PutKeepsAll, TakeKeepsAll, GivesTheHead, PutLeavesOne, CreditsByQuanta, GrantsAreSome, QuantaByPlace, LostByPlace, LostIsLast, SelectionKeepsPackets, PutKeepsLawful, TakeKeepsLawful, ChangeKeepsLawful, FirstIsLawful};
ghost use Rattle.q_fqcodel.specs.NewFlow.{BecomesNew, NewBeforeOld};
ghost use Rattle.q_fqcodel.specs.Order.{QuantaAreEven};

/// A put makes and loses nothing: what was queued and what is put are what is queued then and what is lost.
pub fn put_keeps_all()
    ensures { PutKeepsAll }
{}

/// A take makes and loses nothing: what was queued is what is queued then, what CoDel dropped, and what is sent.
pub fn take_keeps_all()
    ensures { TakeKeepsAll }
{}

/// What a take returns is the packet that was sent, with its codepoint changed where it was marked.
pub fn gives_the_head()
    ensures { GivesTheHead }
{}

/// A put leaves at least one packet.
pub fn put_leaves_one()
    ensures { PutLeavesOne }
{}

/// A packet within the limit that finds its flow in neither list makes it new: it is in the new list, with credits and a
/// packet.
pub fn becomes_new()
    ensures { BecomesNew }
{}

/// Until a new flow sends, no flow sends that was in the old list: RFC 8290's promise to sparse flows (section 4.2), over any
/// number of takes.
pub fn new_before_old()
    ensures { NewBeforeOld }
{}

/// A flow that is listed before the selection and after it has its credits, and a quantum for each that it was given.
pub fn credits_by_quanta()
    ensures { CreditsByQuanta }
{}

/// The flows that are said to get quanta get that many, and one at least.
pub fn grants_are_some()
    ensures { GrantsAreSome }
{}

/// As the old list turns, a flow with packets that is in front of the chosen one gets one quantum more than the chosen
/// one, and a flow behind it as many.
pub fn quanta_by_place()
    ensures { QuantaByPlace }
{}

/// Two flows with packets get equally many quanta if the selection leaves them in the order that they had; else the
/// one that was first gets one more.
pub fn quanta_are_even()
    ensures { QuantaAreEven }
{}

/// A packet that was put is lost itself exactly where its own flow is the fat one, and loses as many as reach its place.
pub fn lost_by_place()
    ensures { LostByPlace }
{}

/// Where no packet like it was queued, it is lost itself exactly where it is the last of those lost.
pub fn lost_is_last()
    ensures { LostIsLast }
{}

/// The selection moves no packet, and changes what CoDel knows of a flow only as a rest does.
pub fn selection_keeps_packets()
    ensures { SelectionKeepsPackets }
{}

/// A put keeps the state lawful, where every packet has a byte.
pub fn put_keeps_lawful()
    ensures { PutKeepsLawful }
{}

/// A take keeps the state lawful, and so does its selection alone.
pub fn take_keeps_lawful()
    ensures { TakeKeepsLawful }
{}

/// A change of the settings that leaves the number of flows keeps the state lawful.
pub fn change_keeps_lawful()
    ensures { ChangeKeepsLawful }
{}

/// A new fq_codel is lawful, and so is one that was purged.
pub fn first_is_lawful()
    ensures { FirstIsLawful }
{}
