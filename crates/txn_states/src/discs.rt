//! The discs that a transaction has enlisted.
ghost use Rattle.std.specs.Prelude.{◌≡◌, ◌<◌, ◌==◌, ◌++◌, [], ◌∷◌, length};
ghost use Rattle.std.specs.List.{list_any};

use std::marker::Model;

/// At most nine numbers, in the order in which they were added. Contracts see their list.
#[derive(Drop)]
pub struct Discs {
    numbers: [u8; 9],
    count: u8,
}

impl Model for Discs {
    ghost use Rattle.std.specs.Prelude.{ℕ, List, ◌≤◌, take, length};

    ghost Value = { List ℕ };

    ghost view = { λ d. take d.count d.numbers };

    ghost invariant = { λ d. d.count ≤ 9 };
}

impl Discs {
    /// None.
    pub fn new() -> Discs
        ensures { result ≡ [] }
    {
        Discs {
            numbers: [0; 9],
            count: 0,
        }
    }

    /// The numbers in their order.
    pub fn as_slice(&self) -> &[u8]
        ensures { result.now ≡ self.now }
    {
        &self.numbers[..usize::from(self.count)]
    }

    /// Whether the number is there.
    pub fn has(&self, number: u8) -> bool
        ensures { result ≡ list_any (λ other. other == number) self.now }
    {
        self.as_slice().iter().any(|other| *other == number)
    }

    /// Adds a number.
    pub fn push(&mut self, number: u8)
        requires { length self.old < 9 }
        ensures { self.new ≡ self.old ++ number ∷ [] }
    {
        self.numbers[usize::from(self.count)] = number;
        self.count += 1;
    }
}
