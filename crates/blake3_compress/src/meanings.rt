//! What the definitions have to do with each other: laws as the contracts of functions that compute nothing.
ghost use Rattle.blake3_compress.specs.HalfRounds.{StatesAreRounds, OutputIsCompressed};

/// The state after four half rounds for each round is that after the rounds (`states`). So what a trace row has as output
/// is the compression of its 28 words (`output`).
pub fn half_rounds_are_rounds()
    ensures states { StatesAreRounds }
    ensures output { OutputIsCompressed }
{}
