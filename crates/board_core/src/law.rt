//! What holds of every board, whatever was asked of it. The calls of `Core` say what they answer
//! in the same words, so that each of them is one of the calls of which this speaks.

ghost use Rattle.std.specs.Prelude.{◌≡◌, ℕ};
ghost use Rattle.board_core.specs.Calls.{IsDetermined};
ghost use Rattle.board_core.specs.Sound.{EveryBoardIsSound, EveryCallKeeps};

/// A value of which it is said when it stands for the rows of an interval.
pub trait Standing {
    /// The rows from the first number to the second have the value.
    ghost stands: { ℕ → ℕ → Self → Type 0 };
}

/// Carries three statements and does nothing. Each call has one answer and one board after it; a
/// board to which any list of calls led is sound, and holds standing values if it was given such;
/// and so is any board to which calls led from a sound one with standing values.
pub fn every_board_is_sound<V: Standing>()
    ensures determined { IsDetermined V }
    ensures sound { EveryBoardIsSound V.stands }
    ensures kept { EveryCallKeeps V.stands }
{}
