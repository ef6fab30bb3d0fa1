use q_device::{Event, Lost};
use q_packet::{Cause, Packet};

/// The most packets that arrive in a turn of a drive, and the most polls.
const MOST: u64 = 64;

/// A walk along the recorded events of a drive of two ports over one pfifo, which refuses one packet at most, from 0 on.
///
/// Each turn comes a step after the one before: packets of each port in the order of their numbers, and then polls up to the first that
/// finds nothing. In the end what was left in the rings arrives.
#[derive(Drop)]
pub struct DriveWalk {
    /// What every packet is but for its port and number.
    given: Packet,
    limit: u64,
    step: u64,
    /// The time of the turn, and of the next one.
    now: u64,
    next: u64,
    arrivals: u64,
    polls: u64,
    is_polled: bool,
    is_settling: bool,
    /// How many packets of each port have arrived.
    pub placed: [u64; 2],
    /// How many packets are queued.
    pub queued: u64,
    /// What was refused so far.
    pub lost: Option<Lost>,
}

impl DriveWalk {
    /// A walk that has not begun.
    pub fn new(given: Packet, limit: u64, step: u64) -> DriveWalk {
        DriveWalk {
            given,
            limit,
            step,
            now: 0,
            next: 0,
            arrivals: 0,
            polls: 0,
            is_polled: true,
            is_settling: false,
            placed: [0, 0],
            queued: 0,
            lost: None,
        }
    }

    /// Whether all these events may follow.
    pub fn follow(&mut self, events: &[Event]) -> bool {
        for event in events {
            let follows = match event {
                Event::Arrive(packet, now) => self.arrive(packet, now.ns()),
                Event::Poll(now) => self.poll(now.ns()),
                Event::Command(_, _) => false,
            };
            if !follows {
                return false;
            }
        }
        self.is_polled
    }

    // A packet arrives in the turn, begins the next one, or was left in its ring.
    fn arrive(&mut self, packet: &Packet, now: u64) -> bool {
        let port = packet.port as usize;
        if port > 1 || !self.takes_arrival(now) {
            return false;
        }
        let number = self.placed[port].saturating_add(1);
        self.placed[port] = number;
        if self.queued < self.limit {
            self.queued += 1;
        } else if self.lost.is_none() {
            self.lost = Some(Lost {
                packet: *packet,
                cause: Cause::OverLimit,
            });
        } else {
            return false;
        }
        let wanted = Packet {
            port: packet.port,
            number,
            ..self.given
        };
        *packet == wanted
    }

    fn takes_arrival(&mut self, now: u64) -> bool {
        if !self.is_polled && self.polls == 0 && now == self.now && self.arrivals < MOST {
            self.arrivals += 1;
            return true;
        }
        if self.is_polled && now == self.next && !self.is_settling {
            self.begin();
            self.arrivals = 1;
            return true;
        }
        self.is_settling = true;
        self.is_polled && now == self.now
    }

    // A poll of the turn, or of the next one, in which nothing has arrived.
    fn poll(&mut self, now: u64) -> bool {
        if self.is_settling {
            return false;
        }
        if self.is_polled {
            self.begin();
        }
        self.polls = self.polls.saturating_add(1);
        if self.queued > 0 {
            self.queued -= 1;
            self.is_polled = self.polls >= MOST;
        } else {
            self.is_polled = true;
        }
        now == self.now
    }

    fn begin(&mut self) {
        self.now = self.next;
        self.next = self.next.saturating_add(self.step);
        self.arrivals = 0;
        self.polls = 0;
        self.is_polled = false;
    }
}
