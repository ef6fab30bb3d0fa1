//! Laws of the definition that [`Codel::take`](crate::Codel::take) equals, in the words of RFC 8289.
//!
//! Each function does nothing. Its contract is a law, stated in `specs/Laws.antt`, for every state, time and queue.
ghost use Rattle.q_codel.specs.Laws.{BelowTarget, OneMtu, LastPacketStays, MarksInPlaceOfDrops, OnlyLateHeads, AtTheirMoments, EmptyQueueRests, QueueIsDivided, OneDropBegins, DueHeadsGo, OneMtuLeft, CountIsResumed, StatesStayInRange};

/// A queue whose sojourn time is below the target loses and marks nothing, and its time above the target begins anew.
pub fn below_target()
    ensures { BelowTarget }
{}

/// With one mtu or less behind the head nothing is dropped or marked.
pub fn one_mtu()
    ensures { OneMtu }
{}

/// The last packet is never dropped.
pub fn last_packet_stays()
    ensures { LastPacketStays }
{}

/// With ECN on, and every packet of a transport that takes part in it, nothing is dropped at all.
pub fn marks_in_place_of_drops()
    ensures { MarksInPlaceOfDrops }
{}

/// A head is dropped or marked only where it is late.
pub fn only_late_heads()
    ensures { OnlyLateHeads }
{}

/// While dropping, each head is dropped or marked only if its time by the control law has come.
pub fn at_their_moments()
    ensures { AtTheirMoments }
{}

/// A take from an empty queue leaves the state at rest.
pub fn empty_queue_rests()
    ensures { EmptyQueueRests }
{}

/// Each packet of the queue is dropped, sent or left, and nothing else is.
pub fn queue_is_divided()
    ensures { QueueIsDivided }
{}

/// Where nothing was being dropped, one take drops one packet at most.
pub fn one_drop_begins()
    ensures { OneDropBegins }
{}

/// A head that is late, that cannot be marked, and whose time has come is dropped.
pub fn due_heads_go()
    ensures { DueHeadsGo }
{}

/// With one mtu or less behind the head that is sent, the time above the target begins anew, and dropping ends.
pub fn one_mtu_left()
    ensures { OneMtuLeft }
{}

/// Dropping that begins again within sixteen intervals goes on from what the count grew by.
pub fn count_is_resumed()
    ensures { CountIsResumed }
{}

/// A take leaves the settings, and a state in its ranges, for times up to 2^62 ns.
pub fn states_stay_in_range()
    ensures { StatesStayInRange }
{}
