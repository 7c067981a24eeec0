//! How a command ends.
ghost use Rattle.std.specs.Prelude.{◌≡◌};
ghost use Rattle.command_reports.specs.Report.{status_number};

use crate::report::Verdict;

/// How a command ended, as "Statuses" in docs/FORMATS.md lists it. The program ends with its
/// number.
#[derive(Clone, Copy, Debug, Drop, PartialEq, Eq)]
pub enum Status {
    Done,
    Refuted,
    Usage,
    Language,
    Broken,
    HopBound,
    Budget,
    Bundle,
    ReadFault,
    WriteFault,
    Limit,
    Lines,
    NoMemory,
    NoFile,
}

impl Status {
    /// The exit status of the program, from 0 in the order of the variants.
    pub fn number(&self) -> u8
        ensures { result ≡ status_number self.now }
    {
        *self as u8
    }
}

impl From<Verdict> for Status {
    ghost use Rattle.std.specs.Prelude.{◌≡◌};
    ghost use Rattle.command_reports.specs.Report.{verdict_status};

    ghost from_gives = { λ verdict status. status ≡ verdict_status verdict };

    fn from(verdict: Verdict) -> Status {
        match verdict {
            Verdict::Done => Status::Done,
            Verdict::Refuted => Status::Refuted,
            Verdict::HopBound => Status::HopBound,
            Verdict::Budget => Status::Budget,
        }
    }
}
