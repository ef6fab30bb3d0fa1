ghost use Rattle.std.specs.Prelude.{◌≡◌, ◌+◌, ◌≤◌, ◌++◌, [], codes, length, decimal};
ghost use Rattle.q_show.specs.Lengths.{HasRoom, GrowsBy, capacity, most_decimal, most_hex, most_name, most_named};
ghost use Rattle.q_show.specs.ShowText.{hex};

use crate::hexadecimal::Hexadecimal;
use arrayvec::ArrayVec;
use std::marker::Model;

/// The most bytes of a text.
const CAPACITY: usize = 1024;

/// A text that is put together bit by bit, without memory of the heap. A contract sees its bytes.
#[derive(Drop)]
pub struct Text {
    bytes: ArrayVec<u8, CAPACITY>,
}

impl Model for Text {
    ghost use Rattle.std.specs.Prelude.{List, ℕ};

    ghost Value = { List ℕ };

    ghost view = { λ t. t.bytes.items };
}

impl Text {
    /// No text yet.
    pub fn new() -> Text
        ensures { result ≡ [] }
    {
        Text {
            bytes: ArrayVec::new(),
        }
    }

    /// The bytes, 1024 at most.
    pub fn as_bytes(&self) -> &[u8]
        ensures bytes { result.now ≡ self.now }
        ensures short { length result.now ≤ capacity }
    {
        self.bytes.as_slice()
    }

    /// Adds bytes for which there is room.
    pub fn put(&mut self, bytes: &[u8])
        requires { HasRoom self.old (length bytes.now) }
        ensures text { self.new ≡ self.old ++ bytes.now }
        ensures len { length self.new ≡ length self.old + length bytes.now }
    {
        let Ok(()) = self.bytes.try_extend_from_slice(bytes) else {
            unreachable!()
        };
    }

    /// Adds a name, with a blank on either side.
    pub fn put_name(&mut self, name: &[u8])
        requires room { HasRoom self.old most_named }
        requires name { length name.now ≤ most_name }
        ensures text { self.new ≡ self.old ++ (codes " " ++ name.now ++ codes " ") }
        ensures len { length self.new ≡ length self.old + (length name.now + 2) }
    {
        self.put(b" ");
        self.put(name);
        self.put(b" ");
    }

    /// Adds a number in decimal digits.
    pub fn put_number(&mut self, n: u64)
        requires { HasRoom self.old most_decimal }
        ensures text { self.new ≡ self.old ++ decimal n }
        ensures short { GrowsBy self.old self.new most_decimal }
    {
        self.put(itoa::Buffer::new().format(n).as_bytes());
    }

    /// Adds a number in hexadecimal digits.
    pub fn put_hexadecimal(&mut self, n: u16)
        requires { HasRoom self.old most_hex }
        ensures text { self.new ≡ self.old ++ hex n }
        ensures short { GrowsBy self.old self.new most_hex }
    {
        self.put(Hexadecimal::new(n).as_bytes());
    }
}
