//! A schedule: a world, and the steps that are taken in it.
ghost use Rattle.std.specs.Prelude.{◌≡◌};

use percpu_core::{Event, Start};
use std::marker::Model;

/// The 0 to 8 guarded words that a world starts with. Contracts see the list of them.
#[derive(Debug, Drop)]
pub struct GuardedWords {
    words: Vec<u64>,
}

impl Model for GuardedWords {
    ghost use Rattle.std.specs.Prelude.{List, ℕ};

    ghost Value = { List ℕ };

    ghost view = { λ w. w.words.items };
}

impl GuardedWords {
    /// Makes a list of these words; no memory is taken.
    pub fn new(words: Vec<u64>) -> Self
        ensures { result ≡ words.items }
    {
        GuardedWords { words }
    }

    /// Returns the words.
    pub fn as_slice(&self) -> &[u64]
        ensures { result.now ≡ self.now }
    {
        self.words.as_slice()
    }

    /// Returns the words as a vector; no memory is taken.
    pub fn into_vec(self) -> Vec<u64>
        ensures { result.items ≡ self }
    {
        self.words
    }
}

/// The steps of a schedule, in order, each with the number of its line. Contracts see the list of them.
#[derive(Debug, Drop)]
pub struct Events {
    events: Vec<(u32, Event)>,
}

impl Model for Events {
    ghost use Rattle.std.specs.Prelude.{List, ℕ};
    ghost use Rattle.percpu_core.specs.declared.event.Event.{Event};

    ghost Value = { List (ℕ × Event) };

    ghost view = { λ e. e.events.items };
}

impl Events {
    /// Makes a list of these steps; no memory is taken.
    pub fn new(events: Vec<(u32, Event)>) -> Self
        ensures { result ≡ events.items }
    {
        Events { events }
    }

    /// Returns the steps.
    pub fn as_slice(&self) -> &[(u32, Event)]
        ensures { result.now ≡ self.now }
    {
        self.events.as_slice()
    }

    /// Returns the steps as a vector; no memory is taken.
    pub fn into_vec(self) -> Vec<(u32, Event)>
        ensures { result.items ≡ self }
    {
        self.events
    }
}

/// A world, and the steps that are taken in it.
#[derive(Debug, Drop)]
pub struct Schedule {
    /// Number of slots of the gate, 1 to 64.
    pub slots: u32,
    /// Number of passes of the gate, 1 to 64.
    pub passes: u32,
    pub start: Start,
    /// Number of kills that the gate starts with, 0 to 2^40.
    pub kills: u64,
    pub words: GuardedWords,
    pub events: Events,
}
