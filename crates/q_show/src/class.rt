//! The text of a class.
ghost use Rattle.std.specs.Prelude.{◌≡◌, ◌+◌, ◌≤◌, ◌++◌, length};
ghost use Rattle.q_show.specs.Lengths.{GrowsBy, HasRoom, most_class, most_class_kind, most_class_line, most_turn};
ghost use Rattle.q_show.specs.ShowText.{class_line, class_text, kind_of_class, turn_text};

use crate::qdisc::put_setting;
use crate::text::Text;
use q_model::{ClassId, ClassKind, ClassView};

/// The name of a class.
pub fn put_class_id(text: &mut Text, class: ClassId)
    requires { HasRoom text.old most_class }
    ensures text { text.new ≡ text.old ++ class_text class }
    ensures short { GrowsBy text.old text.new most_class }
{
    text.put_hexadecimal(class.major.major());
    text.put(b":");
    text.put_hexadecimal(class.minor.number());
}

/// A class on its line.
pub fn put_class(text: &mut Text, class: &ClassView)
    requires { HasRoom text.old most_class_line }
    ensures { text.new ≡ text.old ++ class_line class.now }
{
    text.put(b"class ");
    put_class_kind(text, class.kind, class.class);
    text.put(b"\n");
}

/// The kind of a class, its name, and what a drr keeps of it.
fn put_class_kind(text: &mut Text, kind: ClassKind, class: ClassId)
    requires { HasRoom text.old most_class_kind }
    ensures text { text.new ≡ text.old ++ kind_of_class kind class }
    ensures short { GrowsBy text.old text.new most_class_kind }
{
    match kind {
        ClassKind::Prio => {
            text.put(b"prio ");
            put_class_id(text, class);
        }
        ClassKind::Tbf => {
            text.put(b"tbf ");
            put_class_id(text, class);
        }
        ClassKind::Drr { quantum, deficit } => {
            text.put(b"drr ");
            put_class_id(text, class);
            put_setting(text, b"quantum", u64::from(quantum), b"");
            put_turn(text, deficit);
        }
    }
}

/// Whether a class of a drr is active, and what it may send.
fn put_turn(text: &mut Text, deficit: Option<u64>)
    requires { HasRoom text.old most_turn }
    ensures text { text.new ≡ text.old ++ turn_text deficit }
    ensures short { GrowsBy text.old text.new most_turn }
{
    match deficit {
        Some(deficit) => {
            text.put(b" active");
            put_setting(text, b"deficit", deficit, b"");
        }
        None => text.put(b" asleep"),
    }
}
