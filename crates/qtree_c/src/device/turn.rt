//! A turn of a program's loop: what is due is sent, what was lost is handed out, and the program learns when to come back.
ghost use Rattle.std.specs.Prelude.{◌≡◌, ◌≢◌, ◌≤◌, ◌<◌, ◌^◌, length};
ghost use Rattle.qtree_c.specs.device.Calls.{Calls};
ghost use Rattle.qtree_c.specs.device.Turns.{IsTurn, no_turn, polls_of_turn, turn_events};
ghost use Rattle.qtree_c.specs.events.Noting.{Notes, noting};

use crate::abi::c_device::CDevice;
use crate::abi::c_lost::CLost;
use crate::abi::c_sent::CSent;
use crate::abi::c_turned::CTurned;
use crate::abi::codes::{DONE, IS_CLOSED, OUT_OF_RANGE};
use crate::device::opened::Opened;
use crate::events::noting::{note_polls, note_polls_to_none};
use q_device::{Device, Given, LastEvents};
use q_packet::Moment;

/// Polls for what is due, hands out losses, and says when to come back.
#[unsafe(no_mangle)]
pub extern "C" fn qtree_turn(
    device: &mut CDevice,
    now: u64,
    sent: &mut [CSent],
    lost: &mut [CLost],
    turned: &mut CTurned,
) -> u32
    ensures turn { now ≤ 2 ^ 62 → Calls (IsTurn now result turned.new sent.old sent.new lost.old lost.new) result device.old.held.device device.new.held.device }
    ensures moment { 2 ^ 62 < now → (result ≡ 42) × (device.new.held.device ≡ device.old.held.device) }
    ensures kept { result ≢ 0 → (sent.new ≡ sent.old) × (lost.new ≡ lost.old) × (turned.new ≡ no_turn) }
    ensures noted { result ≡ 0 → Notes (turn_events now (length sent.old)) device.old.held.device device.old.held.last device.new.held.last }
    ensures unnoted { result ≢ 0 → device.new.held.last ≡ device.old.held.last }
{
    let Some(now) = Moment::new(now) else {
        *turned = CTurned::of(0, 0, None);
        return OUT_OF_RANGE;
    };
    if !device.is_open() {
        *turned = CTurned::of(0, 0, None);
        return IS_CLOSED;
    }
    *turned = turn(device.held.lend(), now, sent, lost);
    DONE
}

/// A turn of an open device, whose polls are noted.
#[inline(always)]
fn turn(opened: &mut Opened, now: Moment, sent: &mut [CSent], lost: &mut [CLost]) -> CTurned
    ensures turn { IsTurn now 0 result sent.old sent.new lost.old lost.new opened.old.device opened.new.device }
    ensures noted { opened.new.last ≡ noting (turn_events now (length sent.old) opened.old.device) opened.old.last }
{
    let turned = opened.device.turn(now, sent, lost);
    note_turn(&mut opened.last, &opened.device, turned.answer, turned.sent);
    CTurned::of(turned.sent, turned.lost, turned.again)
}

/// Notes the polls of a turn, which the device has just taken: none where nothing was due.
#[inline(always)]
fn note_turn(last: &mut Option<LastEvents>, device: &Device, answer: Option<Given>, given: usize)
    ensures { last.new ≡ noting (polls_of_turn device.now.device.clock answer given) last.old }
{
    match answer {
        None => {}
        Some(Given::Packet) => note_polls(last, device, given),
        Some(Given::Idle) => note_polls_to_none(last, device, given),
        Some(Given::Later) => note_polls_to_none(last, device, given),
    }
}
