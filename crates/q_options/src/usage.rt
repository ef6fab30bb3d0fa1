//! What the error output says of wrong usage.
ghost use Rattle.std.specs.Prelude.{◌≡◌, ◌≤◌, ◌⊎◌, ◌++◌, [], ◌∷◌, false, All, List, ℕ, length, map, take, string_bytes};
ghost use Rattle.q_show.specs.Lengths.{GrowsBy, HasRoom};
ghost use Rattle.q_options.specs.Usage.{IsPrintable, IsUsageTold, named_command, usage_line};
ghost use Rattle.q_options.specs.Usage as spec;

use clap::Error;
use clap::error::ErrorKind;
use q_show::{Text, write_whole};
use std::fmt::InlineText;
use std::io::Write;

/// The most bytes of clap's text that are read, and of what is wrong with the words.
const LONGEST: usize = 512;

/// Writes the line on wrong usage, such as `qtree: unexpected argument '--nothing'; try 'qtree play --help'`: what is wrong with the words by
/// clap's error, and the help of the command that they name. A byte that would end the line is no part of it. An error of this writer is not
/// reported.
pub fn tell_usage<E: Write>(error: &Error, words: &[String], errors: &mut E)
    ensures { IsUsageTold (map string_bytes words.now) (E.contents errors.old) (E.contents errors.new) }
{
    let text = InlineText::<LONGEST>::of(error);
    let line = line_of(wrong_in(error.kind(), text.as_str()), words);
    let _ = write_whole(errors, line.as_bytes());
}

/// What is wrong with the words, in the lines of clap's text before the first empty one.
fn wrong_in(kind: ErrorKind, text: &str) -> &[u8]
    requires { length text.now ≤ 512 }
    ensures { length result.now ≤ 512 }
{
    if kind == ErrorKind::DisplayHelpOnMissingArgumentOrSubcommand {
        return b"no command is named";
    }
    let first = match text.split_once("\n\n") {
        Some((first, _rest)) => first.as_bytes(),
        None => text.as_bytes(),
    };
    let wrong = first.strip_prefix(b"error: ").unwrap_or(first);
    wrong.strip_suffix(b" found").unwrap_or(wrong)
}

/// The line: `qtree: `, what is wrong, and the help of the command that the words name.
fn line_of(wrong: &[u8], words: &[String]) -> Text
    requires { length wrong.now ≤ 512 }
    ensures plain { All IsPrintable wrong.now → result ≡ usage_line (map string_bytes words.now) wrong.now }
    ensures line { (wrong : List ℕ) × All IsPrintable wrong × (result ≡ usage_line (map string_bytes words.now) wrong) }
{
    let mut line = Text::new();
    line.put(b"qtree: ");
    put_joined(&mut line, wrong);
    line.put(b"; try '");
    line.put(named_command(words));
    line.put(b" --help'\n");
    line
}

/// Adds the lines of a text as one: a blank stands for the end of a line and the blanks that the next one begins with.
fn put_joined(line: &mut Text, text: &[u8])
    requires { HasRoom line.old (length text.now) }
    ensures text { (joined : List ℕ) × All IsPrintable joined × (line.new ≡ line.old ++ joined) }
    ensures plain { All IsPrintable text.now → line.new ≡ line.old ++ text.now }
    ensures short { GrowsBy line.old line.new (length text.now) }
{
    let mut begins = false;
    for i in 0..text.len() {
        begins = put_byte(line, begins, text[i]);
    }
}

/// Adds a byte, unless it is one of the blanks with which a line begins. Answers whether the next one still may be.
fn put_byte(line: &mut Text, begins: bool, byte: u8) -> bool
    requires { HasRoom line.old 1 }
    ensures text { (line.new ≡ line.old) ⊎ ((shown : ℕ) × IsPrintable shown × (line.new ≡ line.old ++ (shown ∷ []))) }
    ensures plain { begins ≡ false → IsPrintable byte → (result ≡ false) × (line.new ≡ line.old ++ (byte ∷ [])) }
{
    if byte == b'\n' {
        line.put(b" ");
        return true;
    }
    if begins && byte == b' ' {
        return true;
    }
    line.put(&[printable(byte)]);
    false
}

/// The byte, or what stands for a control character.
fn printable(byte: u8) -> u8
    ensures shown { IsPrintable result }
    ensures same { IsPrintable byte → result ≡ byte }
{
    match byte {
        0..=31 | 127 => b'?',
        _ => byte,
    }
}

/// The command that the words name behind the program, or the program alone.
fn named_command(words: &[String]) -> &'static [u8]
    ensures name { result.now ≡ spec.named_command (map string_bytes words.now) }
    ensures short { length result.now ≤ 11 }
{
    match words.get(1) {
        Some(command) if command.as_str() == "play" => b"qtree play",
        Some(command) if command.as_str() == "drive" => b"qtree drive",
        _ => b"qtree",
    }
}
