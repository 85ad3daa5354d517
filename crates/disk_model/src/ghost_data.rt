//! Numbers and lists without bound that contracts alone see. Values of these types take no memory.
ghost use Rattle.std.specs.Prelude.{◌≡◌, ◌+◌, ℕ, List, [], ◌∷◌};
ghost use Rattle.std.specs.Borrow.{ftrue};
ghost use Rattle.disk_model.specs.Note.{Note};

use std::marker::{Model, PhantomData};

/// What has been noted, the newest first.
#[derive(Drop)]
pub struct Log {
    marker: PhantomData<u8>,
    pub ghost notes: { List Note },
}

impl Model for Log {
    ghost also_owns = { λ _. ftrue };
}

impl Log {
    /// Nothing has been noted yet.
    pub fn new() -> Log
        ensures { result.notes ≡ [] }
    {
        Log {
            marker: PhantomData,
        }
    }

    /// Notes these values.
    pub fn note(&mut self, _numbers: &[u64], _rows: &[[u8; 512]], _marks: &[bool])
        ensures { self.new.notes ≡ (_numbers.now, _rows.now, _marks.now) ∷ self.old.notes }
    {}
}

/// How often something has happened.
#[derive(Drop)]
pub struct Count {
    log: Log,
}

impl Model for Count {
    ghost use Rattle.std.specs.Prelude.{length};
    ghost use Rattle.disk_model.specs.Tally.{Tally};

    ghost Value = { Tally };

    ghost view = { λ c. record { number = length c.log.notes } };
}

impl Count {
    /// It has not happened yet.
    pub fn new() -> Count
        ensures { result.number ≡ 0 }
    {
        Count { log: Log::new() }
    }

    /// It has happened once more.
    pub fn raise(&mut self)
        ensures { self.new.number ≡ self.old.number + 1 }
    {
        self.log.note(&[], &[], &[]);
    }
}
