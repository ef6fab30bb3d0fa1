//! An option and its value, a space before each, where it is given.
ghost use Rattle.std.specs.Prelude.{◌≡◌, ◌≤◌, ◌+◌, ◌%◌, ◌++◌, ◌∷◌, [], decimal, length};
ghost use Rattle.q_line.specs.Spelling.{bytes_word, class_word, given, handle_word, hex, rate_word, time_word};
ghost use Rattle.q_show.specs.Lengths.{GrowsBy, HasRoom, most_name};
ghost use Rattle.q_spelling.specs.Lengths.{most_class_option, most_handle, most_option, most_time};
ghost use Rattle.q_spelling.specs.Words.{spaced};

use q_model::{ClassId, Handle};
use q_show::Text;

/// A number in decimal digits.
pub fn put_number(text: &mut Text, name: &[u8], n: u64)
    requires room { HasRoom text.old most_option }
    requires name { length name.now ≤ most_name }
    ensures text { text.new ≡ text.old ++ spaced (name.now ∷ decimal n ∷ []) }
    ensures short { GrowsBy text.old text.new most_option }
{
    text.put_name(name);
    text.put_number(n);
}

/// The same, where it is given.
pub fn put_given(text: &mut Text, name: &[u8], n: Option<u32>)
    requires room { HasRoom text.old most_option }
    requires name { length name.now ≤ most_name }
    ensures text { text.new ≡ text.old ++ spaced (given name.now decimal n) }
    ensures short { GrowsBy text.old text.new most_option }
{
    if let Some(n) = n {
        put_number(text, name, u64::from(n));
    }
}

/// A port, where it is given.
pub fn put_given_port(text: &mut Text, name: &[u8], port: Option<u16>)
    requires room { HasRoom text.old most_option }
    requires name { length name.now ≤ most_name }
    ensures text { text.new ≡ text.old ++ spaced (given name.now decimal port) }
    ensures short { GrowsBy text.old text.new most_option }
{
    if let Some(port) = port {
        put_number(text, name, u64::from(port));
    }
}

/// A number of bytes.
pub fn put_bytes(text: &mut Text, name: &[u8], bytes: u32)
    requires room { HasRoom text.old most_option }
    requires name { length name.now ≤ most_name }
    ensures text { text.new ≡ text.old ++ spaced (name.now ∷ bytes_word bytes ∷ []) }
    ensures short { GrowsBy text.old text.new most_option }
{
    text.put_name(name);
    text.put_number(u64::from(bytes));
    text.put(b"b");
}

/// The same, where it is given.
pub fn put_given_bytes(text: &mut Text, name: &[u8], bytes: Option<u32>)
    requires room { HasRoom text.old most_option }
    requires name { length name.now ≤ most_name }
    ensures text { text.new ≡ text.old ++ spaced (given name.now bytes_word bytes) }
    ensures short { GrowsBy text.old text.new most_option }
{
    if let Some(bytes) = bytes {
        put_bytes(text, name, bytes);
    }
}

/// A rate in bits a second.
pub fn put_rate(text: &mut Text, name: &[u8], bits: u64)
    requires room { HasRoom text.old most_option }
    requires name { length name.now ≤ most_name }
    ensures text { text.new ≡ text.old ++ spaced (name.now ∷ rate_word bits ∷ []) }
    ensures short { GrowsBy text.old text.new most_option }
{
    text.put_name(name);
    text.put_number(bits);
    text.put(b"bit");
}

/// A time, in microseconds with three decimal places.
pub fn put_time(text: &mut Text, name: &[u8], ns: u64)
    requires room { HasRoom text.old most_time }
    requires name { length name.now ≤ most_name }
    ensures text { text.new ≡ text.old ++ spaced (name.now ∷ time_word ns ∷ []) }
    ensures short { GrowsBy text.old text.new most_time }
{
    text.put_name(name);
    text.put_number(ns / 1000);
    text.put(b".");
    text.put(&[digit(ns / 100), digit(ns / 10), digit(ns)]);
    text.put(b"us");
}

/// The glyph of a number's last decimal digit.
fn digit(n: u64) -> u8
    ensures { result ≡ 48 + n % 10 }
{
    b'0' + (n % 10) as u8
}

/// The same, where it is given.
pub fn put_given_time(text: &mut Text, name: &[u8], ns: Option<u64>)
    requires room { HasRoom text.old most_time }
    requires name { length name.now ≤ most_name }
    ensures text { text.new ≡ text.old ++ spaced (given name.now time_word ns) }
    ensures short { GrowsBy text.old text.new most_time }
{
    if let Some(ns) = ns {
        put_time(text, name, ns);
    }
}

/// A class id.
pub fn put_class(text: &mut Text, name: &[u8], class: ClassId)
    requires room { HasRoom text.old most_class_option }
    requires name { length name.now ≤ most_name }
    ensures text { text.new ≡ text.old ++ spaced (name.now ∷ class_word class ∷ []) }
    ensures short { GrowsBy text.old text.new most_class_option }
{
    text.put_name(name);
    text.put_hexadecimal(class.major.major());
    text.put(b":");
    text.put_hexadecimal(class.minor.number());
}

/// A handle.
pub fn put_handle(text: &mut Text, name: &[u8], handle: Handle)
    requires room { HasRoom text.old most_handle }
    requires name { length name.now ≤ most_name }
    ensures text { text.new ≡ text.old ++ spaced (name.now ∷ handle_word handle ∷ []) }
    ensures short { GrowsBy text.old text.new most_handle }
{
    text.put_name(name);
    text.put_hexadecimal(handle.major());
    text.put(b":");
}

/// The same, where it is given.
pub fn put_given_handle(text: &mut Text, name: &[u8], handle: Option<Handle>)
    requires room { HasRoom text.old most_handle }
    requires name { length name.now ≤ most_name }
    ensures text { text.new ≡ text.old ++ spaced (given name.now handle_word handle) }
    ensures short { GrowsBy text.old text.new most_handle }
{
    if let Some(handle) = handle {
        put_handle(text, name, handle);
    }
}

/// A number in hexadecimal digits, where it is given.
pub fn put_given_hexadecimal(text: &mut Text, name: &[u8], n: Option<u8>)
    requires room { HasRoom text.old most_option }
    requires name { length name.now ≤ most_name }
    ensures text { text.new ≡ text.old ++ spaced (given name.now hex n) }
    ensures short { GrowsBy text.old text.new most_option }
{
    if let Some(n) = n {
        put_hexadecimal(text, name, n);
    }
}

/// A number in hexadecimal digits.
pub fn put_hexadecimal(text: &mut Text, name: &[u8], n: u8)
    requires room { HasRoom text.old most_option }
    requires name { length name.now ≤ most_name }
    ensures text { text.new ≡ text.old ++ spaced (name.now ∷ hex n ∷ []) }
    ensures short { GrowsBy text.old text.new most_option }
{
    text.put_name(name);
    text.put_hexadecimal(u16::from(n));
}
