//! What a command reports that was not refused.
ghost use Rattle.std.specs.Prelude.{◌≡◌};
ghost use Rattle.command_reports.specs.Report.{given_up, success};

use cocoon_num::List;

/// How a command ends that was not refused.
#[derive(Clone, Copy, Debug, Drop)]
pub enum Verdict {
    Done,
    /// A role was refined by what it does not allow.
    Refuted,
    /// A packet may visit more roles than its block allows.
    HopBound,
    /// A search was given up.
    Budget,
}

/// What a command reports: its verdict, and all lines that are printed.
#[derive(Drop)]
pub struct Report {
    pub verdict: Verdict,
    pub lines: List<u8>,
}

impl Report {
    /// The report of a command that succeeds.
    pub fn success(lines: Vec<u8>) -> Report
        ensures { result ≡ success lines.items }
    {
        Report {
            verdict: Verdict::Done,
            lines: List::from(lines),
        }
    }

    /// The report of a command that gave up a search.
    pub fn given_up(lines: Vec<u8>) -> Report
        ensures { result ≡ given_up lines.items }
    {
        Report {
            verdict: Verdict::Budget,
            lines: List::from(lines),
        }
    }
}
