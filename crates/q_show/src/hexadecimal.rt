ghost use Rattle.std.specs.Prelude.{◌≡◌, ◌<◌, ◌≤◌, length, false};
ghost use Rattle.std.specs.Fmt.{digits, digit_glyph};
ghost use Rattle.q_show.specs.Lengths.{most_hex};

use std::marker::Model;

/// A number in hexadecimal digits, in lower case and without leading zeros. A contract sees their ASCII bytes.
#[derive(Drop)]
pub struct Hexadecimal {
    digits: [u8; 4],
    count: usize,
}

impl Model for Hexadecimal {
    ghost use Rattle.std.specs.Prelude.{List, ℕ, ◌≤◌, take};

    ghost Value = { List ℕ };

    ghost view = { λ h. take h.count h.digits };

    ghost invariant = { λ h. h.count ≤ 4 };
}

impl Hexadecimal {
    /// The digits of a number.
    pub fn new(n: u16) -> Hexadecimal
        ensures text { result ≡ digits 16 false n }
        ensures short { length result ≤ most_hex }
    {
        let low = hexadecimal_digit(n % 16);
        if n < 16 {
            return Hexadecimal {
                digits: [low, 0, 0, 0],
                count: 1,
            };
        }
        let second = hexadecimal_digit(n / 16 % 16);
        if n < 256 {
            return Hexadecimal {
                digits: [second, low, 0, 0],
                count: 2,
            };
        }
        let third = hexadecimal_digit(n / 256 % 16);
        if n < 4096 {
            return Hexadecimal {
                digits: [third, second, low, 0],
                count: 3,
            };
        }
        Hexadecimal {
            digits: [hexadecimal_digit(n / 4096), third, second, low],
            count: 4,
        }
    }

    /// Their bytes.
    pub fn as_bytes(&self) -> &[u8]
        ensures { result.now ≡ self.now }
    {
        &self.digits[..self.count]
    }
}

/// The ASCII digit of a number below 16.
fn hexadecimal_digit(n: u16) -> u8
    requires { n < 16 }
    ensures { result ≡ digit_glyph false n }
{
    if n < 10 {
        b'0' + n as u8
    } else {
        b'a' + (n as u8 - 10)
    }
}
