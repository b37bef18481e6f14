//! The statuses that the program ends with.
//!
//! Each has one number, which scripts read. A number has one meaning for all commands, and no number is given twice.
#![tactic(auto)]

ghost use Rattle.std.specs.Prelude.{◌≡◌};
ghost use Rattle.command_base.specs.Statuses.{status_number};

/// How a call of the program ended.
#[derive(Clone, Copy, Debug, PartialEq, Eq)]
pub enum Status {
    /// The job was done.
    Done,
    /// The words have no form.
    Usage,
    /// The shelf failed, or holds no file under the name.
    ShelfFault,
    /// The text was read whole and is refused.
    RefusedText,
    /// The table is not accepted.
    RefusedTable,
    /// The work or the budget was not enough.
    Spent,
    /// Memory ran out.
    Memory,
    /// The input failed.
    ReadFault,
    /// The output failed.
    WriteFault,
    /// There is none of what was searched.
    NotFound,
    /// The input has more bytes than a command takes.
    TooLong,
    /// A table has no room for as many nodes as a win may need.
    Full,
}

impl Status {
    /// The number of the status.
    pub fn number(self) -> u8
        ensures number { result ≡ status_number self }
    {
        match self {
            Status::Done => 0,
            Status::Usage => 1,
            Status::ShelfFault => 2,
            Status::RefusedText => 3,
            Status::RefusedTable => 4,
            Status::Spent => 5,
            Status::Memory => 6,
            Status::ReadFault => 7,
            Status::WriteFault => 8,
            Status::NotFound => 9,
            Status::TooLong => 11,
            Status::Full => 12,
        }
    }
}
