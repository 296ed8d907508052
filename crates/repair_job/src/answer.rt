//! The answers of a repair, and what they show of a patch.

/// What a repair answers.
#[derive(Clone, Copy, Debug, PartialEq, Eq, Drop)]
pub enum Answer {
    /// The program passes every test as it is.
    Sound,
    /// The program fails a test, and the patch of this rank, counted from 0, is the first that makes
    /// it pass every test.
    Patch(u32),
    /// The program fails a test, and no patch that is tried makes it pass every test.
    Nothing,
}

/// What an answer shows of a patch.
#[derive(Clone, Copy, Debug, PartialEq, Eq, Drop)]
pub enum Shown {
    /// The source with the patch.
    Source,
    /// The line that says what the patch changes.
    Line,
}
