ghost use Rattle.std.specs.Prelude.{◌≡◌, None};

use std::marker::Model;

/// What a polled read or a pollable waits for: a delivery after so many, or nothing.
#[derive(Clone, Copy, Drop)]
pub struct Wait {
    since: Option<u64>,
}

impl Model for Wait {
    ghost use Rattle.std.specs.Prelude.{ℕ, Option};

    ghost Value = { Option ℕ };

    ghost view = { λ wait. wait.since };

    ghost inverse = { λ since. record { since = since } };
}

impl Wait {
    /// Waits for nothing.
    pub fn new() -> Wait
        ensures { result ≡ None }
    {
        Wait { since: None }
    }

    /// The count of deliveries that it waits to see passed, if it waits.
    pub fn since(&self) -> Option<u64>
        ensures { result ≡ self.now }
    {
        self.since
    }

    pub(crate) fn set(&mut self, since: Option<u64>)
        ensures { self.new ≡ since }
    {
        self.since = since;
    }
}
