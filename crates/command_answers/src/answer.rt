//! What a command answers over what was read of its files.
ghost use Rattle.std.specs.Prelude.{IfOk, option_map, string_bytes, ◌≡◌};
ghost use Rattle.command_reports.specs.Report.{given_up};
ghost use Rattle.command_answers.specs.Answering.{failed_with};
ghost use Rattle.command_answers.specs.ReportLines.{budget_line};

use cocoon_num::{List, NoMemory};
use command_reports::{CommandFile, Report, Verdict};
use shared_net::SharedNet;
use std::alloc::Global;

/// What is written with an answer.
#[derive(Drop)]
pub enum Writing<'w> {
    Nothing,
    /// The bundle of this name, of a network. The certificates of its design are written with it, if
    /// there are any here.
    Bundle(&'w str, SharedNet, Option<List<u8>>),
    /// One file with a name of its own.
    Own(CommandFile, List<u8>),
}

/// What a command answers.
#[derive(Drop)]
pub struct Answer<'w> {
    pub report: Report,
    pub writing: Writing<'w>,
}

impl<'w> Answer<'w> {
    /// That of a search that was given up: its line, and the bytes of its file.
    pub fn given_up(line: String, file: Vec<u8>) -> Answer<'w>
        ensures told { result.report ≡ given_up (string_bytes line) }
        ensures written { result.writing ≡ Writing.Own CommandFile.Budget file.items }
    {
        Answer {
            report: Report::given_up(line.into_bytes()),
            writing: Writing::Own(CommandFile::Budget, List::from(file)),
        }
    }

    /// That of a role that was refined by what it does not allow: its text.
    pub fn refuted(text: Vec<u8>) -> Answer<'w>
        ensures { result ≡ failed_with Verdict.Refuted text.items }
    {
        Answer::told(Verdict::Refuted, text)
    }

    /// That of a packet that may visit more roles than its block allows: its text.
    pub fn hop_bound(text: Vec<u8>) -> Answer<'w>
        ensures { result ≡ failed_with Verdict.HopBound text.items }
    {
        Answer::told(Verdict::HopBound, text)
    }

    /// That with this verdict and these lines. Nothing is written.
    fn told(verdict: Verdict, text: Vec<u8>) -> Answer<'w>
        ensures { result ≡ failed_with verdict text.items }
    {
        Answer {
            report: Report {
                verdict,
                lines: List::from(text),
            },
            writing: Writing::Nothing,
        }
    }
}

/// The bytes of certificates, if there are any.
pub fn bytes_in(certificates: &Option<List<u8>>) -> Option<&[u8]>
    ensures { option_map (λ bytes. bytes.now) result ≡ certificates.now }
{
    match certificates {
        Some(bytes) => Some(bytes.items()),
        None => None,
    }
}

/// The line of a search on which conflicts were spent: the most of one search, and what it was about,
/// by its kind and number.
pub fn budget_line(
    alloc: Global,
    conflicts: u32,
    kind: &str,
    number: u32,
) -> Result<String, NoMemory>
    ensures { IfOk result (λ line.
        string_bytes line ≡ budget_line conflicts kind.now number) }
{
    Ok(format!(in alloc; "budget conflicts {conflicts} {kind} {number}\n")?)
}
