//! Exit statuses.
ghost use Rattle.std.specs.Prelude.{◌≡◌};
ghost use Rattle.its_answers.specs.Answered.{refusal_text};

/// How the command ends, as the process's exit status.
#[derive(Clone, Copy, Debug, PartialEq, Eq)]
pub enum Status {
    /// The report was printed.
    Ok = 0,
    /// The input is no script.
    ScriptRefused = 1,
    /// The words are no command.
    WordsRefused = 2,
    /// A read failed.
    ReadFault = 3,
    /// A write failed.
    WriteFault = 4,
    /// Memory ran out.
    Memory = 5,
    /// The description makes no machine.
    MachineRefused = 6,
    /// The state after a leg can't be saved, so the machine isn't moved.
    MigrationRefused = 7,
    /// A leg has more calls than places.
    Spent = 8,
    /// The input is too long.
    TooLong = 9,
    /// The report is that of no run of its script.
    TraceDiffers = 10,
    /// What follows the script is no report.
    BadTrace = 11,
    /// So many calls were tried for an order that explains the replies, and no more may be.
    Undecided = 12,
}

/// The line of a status that needs no more words, or no byte.
pub fn refusal(status: Status) -> &'static str
    ensures { result.now ≡ refusal_text status }
{
    match status {
        Status::WordsRefused => "refused words\n",
        Status::ReadFault => "refused read\n",
        Status::Memory => "refused memory\n",
        Status::TooLong => "refused long\n",
        _ => "",
    }
}
