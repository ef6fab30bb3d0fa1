//! The lines of events, and the script that plays them again.
ghost use Rattle.std.specs.Prelude.{◌≡◌, ◌≤◌, ◌++◌, IfOk, OnOk, codes, length};
ghost use Rattle.q_line.specs.declared.line.Line.TheVariants as line;
ghost use Rattle.q_spelling.specs.Events.{arrival_of, event_line, event_text, line_text, moment_of, moment_text, script_text};

use crate::arrivals::arrival_text;
use crate::commands::command_text;
use q_line::{Arrival, Line};
use q_model::Event;
use q_packet::{Moment, Packet};
use q_show::Text;
use std::alloc::{AllocError, Global};

/// The line that an event is. Of a packet it has all but the port, the number and the buffer.
pub fn event_line(event: &Event) -> Line
    ensures { result ≡ event_line event.now }
{
    match event {
        Event::Arrive(packet, _) => Line::Pkt(arrival_of(packet)),
        Event::Poll(_) => Line::Poll(1),
        Event::Command(command, _) => Line::Tc(*command),
    }
}

/// What a line says of a packet.
fn arrival_of(packet: &Packet) -> Arrival
    ensures { result ≡ arrival_of packet.now }
{
    Arrival {
        key: packet.key,
        hash: Some(packet.hash),
        len: packet.len,
        prio: packet.prio,
        ecn: packet.ecn,
    }
}

/// The text of that line, without its newline: 1024 bytes at most.
pub fn event_text(event: &Event) -> Text
    ensures { result ≡ event_text event.now }
{
    match event {
        Event::Arrive(packet, _) => arrival_text(&arrival_of(packet)),
        Event::Poll(_) => poll_text(),
        Event::Command(command, _) => command_text(command),
    }
}

/// The line of one poll.
fn poll_text() -> Text
    ensures { result ≡ line_text (line.Poll 1) }
{
    let mut text = Text::new();
    text.put(b"poll ");
    text.put_number(1);
    text
}

/// The line that sets the time.
fn moment_line(moment: Moment) -> Text
    ensures { result ≡ line_text (line.At moment) }
{
    let mut text = Text::new();
    text.put(b"at ");
    text.put_number(moment.ns());
    text
}

/// When an event came.
fn moment_of(event: &Event) -> Moment
    ensures { result ≡ moment_of event.now }
{
    match event {
        Event::Arrive(_, moment) | Event::Poll(moment) | Event::Command(_, moment) => *moment,
    }
}

/// The script that plays events again: a line for each, and lines that set the time. `qtree play` with the device's mtu and
/// txqueuelen does what the device did. Its memory is that of the text, which grows by doubling.
///
/// # Errors
///
/// `AllocError` if an allocation fails.
pub fn script_of(alloc: Global, events: &[Event]) -> Result<Vec<u8>, AllocError>
    ensures { IfOk result (λ text. text.items ≡ script_text events.now) }
{
    let mut text = Vec::new(alloc);
    let mut before = Moment::zero();
    for event in events {
        let now = moment_of(event);
        push_moment(&mut text, before, now)?;
        push_line(&mut text, &event_text(event))?;
        before = now;
    }
    Ok(text)
}

/// Adds the line that sets the time, if it is not the time of the line before.
fn push_moment(text: &mut Vec<u8>, before: Moment, now: Moment) -> Result<(), AllocError>
    ensures { OnOk result (text.new.items ≡ text.old.items ++ moment_text before now) }
{
    if now == before {
        return Ok(());
    }
    push_line(text, &moment_line(now))
}

/// Adds a line and its newline.
fn push_line(text: &mut Vec<u8>, line: &Text) -> Result<(), AllocError>
    ensures { OnOk result (text.new.items ≡ text.old.items ++ (line.now ++ codes "\n")) }
{
    text.extend_from_slice(line.as_bytes())?;
    text.push(b'\n')?;
    Ok(())
}
