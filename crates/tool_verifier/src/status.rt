//! How a run ended.

ghost use Rattle.std.specs.Prelude.{◌≡◌};
ghost use Rattle.tool_verifier.specs.Status.{status_number};

/// How a run ended.
#[derive(Clone, Copy, Debug, PartialEq, Eq)]
pub enum Status {
    /// The command did its work.
    Done,
    /// The command refused its input.
    Refused,
    /// The words name no command. Nothing was read.
    Usage,
    /// The bytes of the input, read to their end where the source tells them, are no text of the command's grammar.
    BadInput,
    /// The source's count of faults rose. Nothing was written.
    ReadFault,
    /// The sink's count of faults rose. A part of the text was written, its front.
    WriteFault,
    /// Out of memory. Nothing was written.
    OutOfMemory,
    /// The input has more than 67,108,864 bytes. Nothing was written.
    TooLarge,
}

impl Status {
    /// The exit status: 0 for `Done` up to 7 for `TooLarge`.
    pub fn number(self) -> u8
        ensures { result ≡ status_number self }
    {
        self as u8
    }
}
