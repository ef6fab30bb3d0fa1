ghost use Rattle.std.specs.Prelude.{◌≡◌, ◌==◌, ◌≤◌, ◌<◌, ◌+◌, ◌^◌, ◌++◌, [], ◌∷◌, length, nat_le, IfSome, option_map};
ghost use Rattle.std.specs.List.{position};

use std::marker::Model;

/// The numbers of a priomap that have been read so far. A contract sees it as the record `Bands`.
#[derive(Drop)]
pub struct Priomap {
    /// The index of the first number's word.
    from: usize,
    count: usize,
    numbers: [u8; 16],
}

impl Model for Priomap {
    ghost use Rattle.std.specs.Prelude.{◌≤◌, ◌<◌, ◌^◌, take};
    ghost use Rattle.q_line.specs.Drafts.{Bands};

    ghost Value = { Bands };

    ghost view = { λ p. record { from = p.from; numbers = take p.count p.numbers } };

    ghost invariant = { λ p. (p.count ≤ 16) × (p.from < 2 ^ 63) };
}

impl Priomap {
    /// No number yet; the first will be the word of this index.
    pub fn new(from: usize) -> Priomap
        requires { from < 2 ^ 63 }
        ensures { result ≡ record { from = from; numbers = [] } }
    {
        Priomap {
            from,
            count: 0,
            numbers: [0; 16],
        }
    }

    /// With one number more.
    pub fn with(self, number: u8) -> Priomap
        requires { length self.numbers < 16 }
        ensures { result ≡ record { from = self.from; numbers = self.numbers ++ number ∷ [] } }
    {
        let Priomap {
            from,
            count,
            mut numbers,
        } = self;
        numbers[count] = number;
        Priomap {
            from,
            count: count + 1,
            numbers,
        }
    }

    /// Whether all sixteen numbers are there.
    pub fn is_whole(&self) -> bool
        ensures value { result ≡ (length self.now.numbers == 16) }
        ensures few { length self.now.numbers ≤ 16 }
    {
        self.count == 16
    }

    /// The index of the word of the first number that is no band.
    pub fn first_bad(&self, bands: u8) -> Option<usize>
        ensures { result ≡ option_map (λ i. self.now.from + i) (position (λ n. nat_le bands n) self.now.numbers) }
    {
        let place = first_above(&self.numbers[..self.count], bands)?;
        Some(self.from + place)
    }

    /// The sixteen numbers.
    pub fn numbers(self) -> [u8; 16]
        requires { length self.numbers ≡ 16 }
        ensures { result ≡ self.numbers }
    {
        self.numbers
    }
}

/// The place of the first number that is none of so many bands.
fn first_above(numbers: &[u8], bands: u8) -> Option<usize>
    ensures value { result ≡ position (λ n. nat_le bands n) numbers.now }
    ensures within { IfSome result (λ place. place < length numbers.now) }
{
    numbers.iter().position(|number| bands <= *number)
}
