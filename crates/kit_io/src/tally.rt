//! A count that contracts alone see.
ghost use Rattle.std.specs.Prelude.{◌≡◌, ◌+◌, ℕ};
ghost use Rattle.std.specs.Borrow.{ftrue};

use std::marker::{Model, PhantomData};

/// How often something happened, as a whole number without an upper limit. Its size is zero.
#[derive(Drop)]
pub struct Tally {
    marker: PhantomData<u8>,
    pub ghost count: { ℕ },
}

impl Model for Tally {
    ghost also_owns = { λ _. ftrue };
}

impl Tally {
    /// A count of 0.
    pub(crate) fn new() -> Tally
        ensures { result.count ≡ 0 }
    {
        Tally {
            marker: PhantomData,
        }
    }

    /// Adds 1 to the count.
    pub(crate) fn tick(&mut self)
        ensures { self.new.count ≡ self.old.count + 1 }
    {}
}
