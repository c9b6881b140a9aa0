//! Machines: what a history is a history of.
ghost use Rattle.chronicle.specs.Histories.{FactsStay, IsMonotone, Rules};

/// A machine of parts. Its three types are plain data, and no value of them has to be made.
pub trait Machine {
    /// The state of one part.
    type State;

    /// What can happen at one part.
    type Event;

    /// What one part's state can make true for the others.
    type Fact;

    /// When an event may happen, what it makes of its part, and which facts hold.
    ghost rules: { Rules Self.State Self.Event Self.Fact };

    /// An event that its part may have takes no fact of that part away.
    ghost facts_stay: { FactsStay rules };

    /// What an event asks of the facts still holds where more of them are true.
    ghost monotone: { IsMonotone rules };
}

/// A value that names an event of the machine, by its meaning alone.
pub trait Names<M: Machine> {
    ghost event: { Self → M.Event };
}

/// A value that names the opening state of each part, from part 0 on.
pub trait Opens<M: Machine> {
    ghost use Rattle.std.specs.Prelude.{List};

    ghost opening: { Self → List M.State };
}
