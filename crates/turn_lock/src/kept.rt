ghost use Rattle.std.specs.Prelude.{◌≡◌, ℕ, ◌+◌, ◌%◌, ◌^◌, List};
ghost use Rattle.turn_lock.specs.Journals.{AddsAtMostOne};

/// A value under the lock. Its journal is a list of entries, each with the number of the pass that added it.
pub trait Kept {
    type Note;

    // Each entry has the number of a pass, and a note.
    ghost journal: { Self → List (ℕ × Self.Note) };

    // How many turns were taken, modulo 2^64.
    ghost turns: { Self → ℕ };

    // A number that no change changes. A condition of a change may speak of it.
    ghost width: { Self → ℕ };

    /// How many turns were taken, modulo 2^64.
    fn turns(&self) -> u64
        ensures { result ≡ turns self.now };
}

/// A change of a value, which is one turn. It adds at most one entry, and that last.
pub trait Change<V: Kept> {
    type Answer;

    // At which width the change may be made.
    ghost fits: { Self → ℕ → Type 0 };

    // The change, the pass's number, the value before, the value after and the answer.
    ghost does: { Self → ℕ → V → V → Self.Answer → Type 0 };

    fn apply(self, number: u32, value: &mut V) -> Self::Answer
        requires fits { fits self (V.width value.old) }
        ensures does { does self number value.old value.new result }
        ensures adds { AddsAtMostOne number (V.journal value.old) (V.journal value.new) }
        ensures width { V.width value.new ≡ V.width value.old }
        ensures turns { V.turns value.new ≡ (V.turns value.old + 1) % 2 ^ 64 };
}
