//! How a session ends.

ghost use Rattle.std.specs.Prelude.{◌≡◌};
ghost use Rattle.dp_sessions.specs.Codes.{session_end_code, session_end_name};

/// How a session ends (own).
#[derive(Clone, Copy, Debug, PartialEq, Eq)]
pub enum SessionEnd {
    /// The reader ended.
    EndOfInput,
    /// A read failed.
    ReadFault,
    /// A write failed, or took no octet, or an entry was not recorded.
    WriteFault,
    /// Another session holds the master's address; nothing was written.
    AddressHeld,
    /// The address is no master of the line; nothing was written.
    UnknownMaster,
    /// The session made as many reads as it may make.
    TurnLimit,
    /// The line gave no pass; nothing was written.
    NoPass,
}

impl SessionEnd {
    /// Returns the number of the end, 1 to 7 (own).
    pub const fn code(self) -> u8
        ensures { result ≡ session_end_code self }
    {
        match self {
            SessionEnd::EndOfInput => 1,
            SessionEnd::ReadFault => 2,
            SessionEnd::WriteFault => 3,
            SessionEnd::AddressHeld => 4,
            SessionEnd::UnknownMaster => 5,
            SessionEnd::TurnLimit => 6,
            SessionEnd::NoPass => 7,
        }
    }

    /// Returns the name of the end in texts (own).
    pub const fn name(self) -> &'static str
        ensures { result.now ≡ session_end_name self }
    {
        match self {
            SessionEnd::EndOfInput => "EndOfInput",
            SessionEnd::ReadFault => "ReadFault",
            SessionEnd::WriteFault => "WriteFault",
            SessionEnd::AddressHeld => "AddressHeld",
            SessionEnd::UnknownMaster => "UnknownMaster",
            SessionEnd::TurnLimit => "TurnLimit",
            SessionEnd::NoPass => "NoPass",
        }
    }
}
