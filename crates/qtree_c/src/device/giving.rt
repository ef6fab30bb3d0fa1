//! An open device is polled, and each packet that it gives is reported to C.
ghost use Rattle.std.specs.Prelude.{◌≡◌, ◌≤◌, Some, None, OnErr, OnOk, IfErr, option_map};
ghost use Rattle.q_model.specs.declared.event.Event.TheVariants as event;
ghost use Rattle.q_model.specs.Step.{counts_at};
ghost use Rattle.q_device.specs.device.Polls.{after_poll, given_at};
ghost use Rattle.q_device.specs.Events.{reply_to};
ghost use Rattle.qtree_c.specs.abi.Codes.{reply_number};
ghost use Rattle.qtree_c.specs.device.Calls.{IsPoll};
ghost use Rattle.qtree_c.specs.device.Folds.{IsPolls};
ghost use Rattle.qtree_c.specs.events.Noting.{noting, one_event, poll_events};

use crate::abi::codes::{DONE, IDLE, LATER};
use crate::device::opened::Opened;
use crate::device::polled_into::PolledInto;
use crate::device::steps;
use crate::events::noting::{note_polls, note_polls_to_none};
use q_device::{Given, Told};
use q_packet::Moment;

/// An open device is polled.
#[inline(always)]
pub fn poll<T: PolledInto>(opened: &mut Opened, now: Moment, place: &mut T) -> u32
    ensures poll { IsPoll T.told now result place.old place.new opened.old.device opened.new.device }
    ensures codes { result ≤ 31 }
    ensures noted { opened.new.last ≡ noting (one_event (event.Poll now) opened.old.device) opened.old.last }
    ensures kept { 30 ≤ result → place.new ≡ place.old }
{
    match next(opened, now, place) {
        Ok(()) => DONE,
        Err(code) => code,
    }
}

/// An open device is polled until there are as many packets as places, or to the first poll that gives none.
#[inline(always)]
pub fn poll_many<T: Told>(opened: &mut Opened, places: &mut [T], now: Moment) -> (usize, u32)
    ensures polls { IsPolls T.told now result.1 result.0 places.old places.new opened.old.device opened.new.device }
    ensures codes { result.1 ≤ 31 }
    ensures noted { opened.new.last ≡ noting (poll_events now result.1 result.0 opened.old.device) opened.old.last }
{
    let (given, answer) = opened.device.poll_many(now, places);
    match answer {
        Given::Packet => {
            note_polls(&mut opened.last, &opened.device, given);
            (given, DONE)
        }
        Given::Idle => {
            note_polls_to_none(&mut opened.last, &opened.device, given);
            (given, IDLE)
        }
        Given::Later => {
            note_polls_to_none(&mut opened.last, &opened.device, given);
            (given, LATER)
        }
    }
}

/// The packet that a poll gives is told in this place.
///
/// # Errors
///
/// What the poll is answered where it gives none. The place stays as it is.
#[inline(always)]
fn next<T: PolledInto>(opened: &mut Opened, now: Moment, place: &mut T) -> Result<(), u32>
    ensures polled { opened.new.device ≡ after_poll now opened.old.device }
    ensures given { OnOk result (option_map T.told (given_at now opened.old.device) ≡ Some place.new) }
    ensures kept { OnErr result (place.new ≡ place.old) }
    ensures done { OnOk result (reply_number (reply_to (event.Poll now) opened.old.device) ≡ 0) }
    ensures none { OnErr result (given_at now opened.old.device ≡ None) }
    ensures answer { IfErr result (λ code. code ≡ reply_number (reply_to (event.Poll now) opened.old.device)) }
    ensures codes { IfErr result (λ code. code ≤ 31) }
    ensures waits { IfErr result (λ code. 30 ≤ code) }
    ensures noted { opened.new.last ≡ noting (one_event (event.Poll now) opened.old.device) opened.old.last }
    ensures clock { opened.new.device.device.clock ≡ counts_at now opened.old.device.device }
{
    match steps::poll(opened, now, place) {
        Given::Packet => Ok(()),
        Given::Idle => Err(IDLE),
        Given::Later => Err(LATER),
    }
}
