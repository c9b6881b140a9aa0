//! Items in a row, of which the first is taken.
ghost use Rattle.std.specs.Prelude.{◌≡◌, [], ◌∷◌, MatchOption};

use std::marker::Model;

/// Items in a row. Contracts see those that are left, in their order.
#[derive(Drop)]
pub struct Row<T> {
    // From the last item to the first.
    reversed: Vec<T>,
}

impl<T> Model for Row<T> {
    ghost use Rattle.std.specs.Prelude.{List, reverse};

    ghost Value = { List T };

    ghost view = { λ r. reverse r.reversed.items };
}

impl<T> Row<T> {
    pub fn new(items: Vec<T>) -> Row<T>
        ensures { result ≡ items.items }
    {
        let mut reversed = items;
        reversed.reverse();
        Row { reversed }
    }

    /// Takes the first item.
    pub fn take(&mut self) -> Option<T>
        ensures { MatchOption result ((self.old ≡ []) × (self.new ≡ [])) (λ x. self.old ≡ x ∷ self.new) }
    {
        self.reversed.pop()
    }

    /// The list that held the items, when none is left.
    pub fn into_empty(self) -> Vec<T>
        requires { self ≡ [] }
        ensures { result.items ≡ [] }
    {
        let Row { reversed } = self;
        reversed
    }

    /// Ends the row, which has no item left.
    pub fn end(self)
        requires { self ≡ [] }
    {
        let Row { reversed } = self;
        reversed.destroy_empty();
    }
}
