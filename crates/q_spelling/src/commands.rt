//! The line of tc that a command is.
ghost use Rattle.std.specs.Prelude.{◌≡◌, ◌≤◌, ◌++◌, ◌∷◌, [], codes, length};
ghost use Rattle.std.specs.Option.{option_map_or};
ghost use Rattle.q_line.specs.Spelling.{bytes_word, change_words, class_word, command_words, given, handle_word, kind_words, place_words, some_place_words};
ghost use Rattle.q_line.specs.declared.line.Line.TheVariants as line;
ghost use Rattle.q_model.specs.declared.command.Command.TheVariants as command;
ghost use Rattle.q_show.specs.Lengths.{GrowsBy, HasRoom};
ghost use Rattle.q_spelling.specs.Events.{line_text};
ghost use Rattle.q_spelling.specs.Lengths.{most_class, most_class_place, most_place, most_qdisc};
ghost use Rattle.q_spelling.specs.Words.{device_name, spaced};

use crate::filters::put_filter;
use crate::kinds::put_kind;
use crate::options::{put_bytes, put_class, put_given_handle, put_handle, put_number};
use q_model::{ClassId, Command, Handle, Kind, Place, Quantum};
use q_show::Text;

/// The line of tc that a command is, without its newline. Of what no line gives, a place above the root, it has nothing.
pub fn command_text(command: &Command) -> Text
    ensures { result ≡ line_text (line.Tc command.now) }
{
    let mut text = Text::new();
    match *command {
        Command::QdiscAdd {
            place,
            handle,
            kind,
        } => {
            text.put(b"tc qdisc add dev eth0");
            put_qdisc(&mut text, Some(place), handle, Some(kind));
        }
        Command::QdiscChange {
            place,
            handle,
            kind,
        } => {
            text.put(b"tc qdisc change dev eth0");
            put_qdisc(&mut text, place, handle, Some(kind));
        }
        Command::QdiscDel { place, handle } => {
            text.put(b"tc qdisc del dev eth0");
            put_qdisc(&mut text, place, handle, None);
        }
        Command::ClassAdd {
            parent,
            class,
            quantum,
        } => {
            text.put(b"tc class add dev eth0");
            put_drr(&mut text, Some(parent), class, quantum);
        }
        Command::ClassChange {
            parent,
            class,
            quantum,
        } => {
            text.put(b"tc class change dev eth0");
            put_drr(&mut text, parent, class, quantum);
        }
        Command::ClassDel { parent, class } => {
            text.put(b"tc class del dev eth0");
            put_class_place(&mut text, parent, class);
        }
        Command::FilterAdd {
            parent,
            major,
            filter,
        } => {
            text.put(b"tc filter add dev eth0");
            put_filter(&mut text, parent, major, &filter);
        }
        Command::FilterDel { parent, prio } => {
            text.put(b"tc filter del dev eth0");
            put_handle(&mut text, b"parent", parent);
            put_number(&mut text, b"prio", u64::from(prio.number()));
        }
    }
    text
}

/// The place of a qdisc, its handle, and its kind if there is one.
fn put_qdisc(text: &mut Text, place: Option<Place>, handle: Option<Handle>, kind: Option<Kind>)
    requires { HasRoom text.old most_qdisc }
    ensures text { text.new ≡ text.old ++ spaced (some_place_words place ++ (given (codes "handle") handle_word handle ++ option_map_or kind_words kind [])) }
    ensures short { GrowsBy text.old text.new most_qdisc }
{
    put_place(text, place);
    put_given_handle(text, b"handle", handle);
    if let Some(kind) = kind {
        put_kind(text, &kind);
    }
}

/// The place of a qdisc.
fn put_place(text: &mut Text, place: Option<Place>)
    requires { HasRoom text.old most_place }
    ensures text { text.new ≡ text.old ++ spaced (some_place_words place) }
    ensures short { GrowsBy text.old text.new most_place }
{
    match place {
        Some(Place::Root) => text.put(b" root"),
        Some(Place::Class(class)) => put_class(text, b"parent", class),
        Some(Place::Top) | None => {}
    }
}

/// A class of a drr with its quantum.
fn put_drr(text: &mut Text, parent: Option<Handle>, class: ClassId, quantum: Option<Quantum>)
    requires { HasRoom text.old most_class }
    ensures text { text.new ≡ text.old ++ spaced (given (codes "parent") handle_word parent ++ ((codes "classid" ∷ class_word class ∷ codes "drr" ∷ []) ++ given (codes "quantum") bytes_word quantum)) }
    ensures short { GrowsBy text.old text.new most_class }
{
    put_class_place(text, parent, class);
    text.put(b" drr");
    if let Some(quantum) = quantum {
        put_bytes(text, b"quantum", quantum.bytes());
    }
}

/// The class of a drr, and the node that has it where that is given.
fn put_class_place(text: &mut Text, parent: Option<Handle>, class: ClassId)
    requires { HasRoom text.old most_class_place }
    ensures text { text.new ≡ text.old ++ spaced (given (codes "parent") handle_word parent ++ (codes "classid" ∷ class_word class ∷ [])) }
    ensures short { GrowsBy text.old text.new most_class_place }
{
    put_given_handle(text, b"parent", parent);
    put_class(text, b"classid", class);
}
