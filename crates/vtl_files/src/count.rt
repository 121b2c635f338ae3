// A count stands still at the last value of its type, and then counts as having risen (`Rose`), so no call needs the
// condition that a count has room.
ghost use Rattle.std.specs.Prelude.{◌≡◌, ◌≤◌, ◌+◌, ◌-◌, ◌^◌, ℕ, min};

use std::marker::Model;

// A count of events. It stays at its greatest value once it has reached it.
#[derive(Clone, Copy)]
pub(crate) struct Count {
    value: u64,
}

impl Model for Count {
    ghost Value = { ℕ };

    ghost view = { λ count. count.value };

    ghost inverse = { λ value. record { value = value } };
}

impl Count {
    pub(crate) fn new() -> Count
        ensures { result ≡ 0 }
    {
        Count { value: 0 }
    }

    pub(crate) fn value(self) -> u64
        ensures { result ≡ self }
    {
        self.value
    }

    // Counts one more.
    pub(crate) fn rise(&mut self)
        ensures rose { self.new ≡ min (self.old + 1) (2 ^ 64 - 1) }
        ensures never_falls { self.old ≤ self.new }
    {
        self.value = self.value.saturating_add(1);
    }

    // Counts one more, and gives the count.
    pub(crate) fn next(&mut self) -> u64
        ensures rose { self.new ≡ min (self.old + 1) (2 ^ 64 - 1) }
        ensures count { result ≡ min (self.old + 1) (2 ^ 64 - 1) }
    {
        self.rise();
        self.value()
    }
}
