ghost use Rattle.std.specs.Prelude.{◌≡◌};
ghost use Rattle.tn_top.specs.ExitCodes.{exit_code};

/// How a command ended.
#[derive(Clone, Copy)]
pub enum Status {
    /// All was done.
    Done,
    /// A file is not what it has to be.
    Fault,
    /// The words spell no command.
    Usage,
    /// A stated limit is passed.
    Limit,
    /// A file cannot be read.
    ReadFault,
    /// A file cannot be written.
    WriteFault,
    /// The output cannot be printed to.
    OutFault,
    NoMemory,
    /// A step of a schedule is not enabled when it comes.
    NotEnabled,
}

/// The exit code of a status: 0 for `Done`, and 1 to 8 for the others in their order.
pub fn code(s: Status) -> u8
    ensures { result ≡ exit_code s }
{
    match s {
        Status::Done => 0,
        Status::Fault => 1,
        Status::Usage => 2,
        Status::Limit => 3,
        Status::ReadFault => 4,
        Status::WriteFault => 5,
        Status::OutFault => 6,
        Status::NoMemory => 7,
        Status::NotEnabled => 8,
    }
}
