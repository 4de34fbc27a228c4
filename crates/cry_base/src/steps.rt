//! A count of steps that only clauses read.
ghost use Rattle.std.specs.Prelude.{◌≡◌, ◌+◌, ℕ};
ghost use Rattle.std.specs.Borrow.{ftrue};

use std::marker::Model;

/// How often something was done. It has no end and takes no bytes.
#[derive(Drop)]
struct Taken {
    ghost count: { ℕ },
}

impl Model for Taken {
    ghost also_owns = { λ _. ftrue };
}

impl Taken {
    /// Nothing was done.
    fn none() -> Taken
        ensures { result.count ≡ 0 }
    {
        Taken {}
    }

    /// It was done once more.
    fn more(&self) -> Taken
        ensures { result.count ≡ self.now.count + 1 }
    {
        Taken {}
    }
}

/// How many steps were taken. Contracts see it as a number. It takes no bytes, and only `tick` changes it.
#[derive(Drop)]
pub struct Steps {
    taken: Taken,
}

impl Model for Steps {
    ghost use Rattle.std.specs.Prelude.{ℕ};

    ghost Value = { ℕ };

    ghost view = { λ s. s.taken.count };
}

impl Steps {
    /// No step was taken yet.
    pub fn new() -> Self
        ensures { result ≡ 0 }
    {
        Steps {
            taken: Taken::none(),
        }
    }

    /// Takes a step.
    pub fn tick(&mut self)
        ensures { self.new ≡ self.old + 1 }
    {
        self.taken = self.taken.more();
    }
}
