//! How a run of the program ends, and its exit status.
ghost use Rattle.std.specs.Prelude.{◌≡◌};
ghost use Rattle.command_parts.specs.Process.{exit_status_of};

/// How a run of the program ended.
#[derive(Clone, Copy, Debug, PartialEq, Eq)]
pub enum Status {
    /// The input, where the command reads it, was read to its end, and no reply is an error.
    Done,
    /// As `Done`, and some reply is an error.
    SomeErrors,
    /// The script is refused; the refusal line was written.
    Refused,
    /// Reading the input failed.
    ReadFault,
    /// Writing failed.
    WriteFault,
    /// Memory ran out.
    NoMemory,
    /// The input has more bytes than its limit.
    InputLong,
    /// The words are not a command and its one word.
    Usage,
    /// Reading a file failed.
    FileFault,
    /// There is no file of that name.
    FileAbsent,
    /// The file has more than 1,048,576 bytes.
    FileLong,
}

impl Status {
    /// The exit status of the process.
    pub fn exit_status(self) -> u8
        ensures { result ≡ exit_status_of self }
    {
        match self {
            Status::Done => 0,
            Status::SomeErrors => 1,
            Status::Refused => 2,
            Status::ReadFault => 3,
            Status::WriteFault => 4,
            Status::NoMemory => 5,
            Status::InputLong => 6,
            Status::Usage => 7,
            Status::FileFault => 8,
            Status::FileAbsent => 9,
            Status::FileLong => 10,
        }
    }
}
