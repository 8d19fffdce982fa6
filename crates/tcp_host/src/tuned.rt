//! What a user chooses of an end that is in a host.
ghost use Rattle.std.specs.Prelude.{◌≡◌, ℕ};

use crate::timed::Timed;

/// An end with its times of which its user chooses something while it goes, as its policy or its user timeout.
pub trait Tuned: Timed {
    /// What is chosen.
    type Choice;
    /// What choosing it answers.
    type Choosing;

    ghost choice_answer: { Self → Self.Choice → Self.Choosing };

    ghost chosen: { Self → ℕ → Self.Choice → Self };

    /// The user chooses this at a time.
    fn choose(&mut self, now: u64, choice: &Self::Choice) -> Self::Choosing
        ensures answer { result ≡ choice_answer self.old choice.now }
        ensures state { self.new ≡ chosen self.old now choice.now };
}
