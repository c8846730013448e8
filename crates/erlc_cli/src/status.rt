ghost use Rattle.std.specs.Prelude.{◌≡◌};
ghost use Rattle.erlc_cli.specs.Answers.{code_of};

use erl_base::Refusal;

/// How a call ended.
#[derive(Clone, Copy, Debug, PartialEq, Eq)]
pub enum Status {
    Done,
    Refused(Refusal),
    Usage,
    ReadFault,
    WriteFault,
    NoMemory,
    Unsafe,
    Unfinished,
    Beyond,
}

impl Status {
    /// The exit code of the program: 0 to 8, in the order of the statuses.
    pub fn code(&self) -> u8
        ensures { result ≡ code_of self.now }
    {
        match self {
            Status::Done => 0,
            Status::Refused(_) => 1,
            Status::Usage => 2,
            Status::ReadFault => 3,
            Status::WriteFault => 4,
            Status::NoMemory => 5,
            Status::Unsafe => 6,
            Status::Unfinished => 7,
            Status::Beyond => 8,
        }
    }
}
