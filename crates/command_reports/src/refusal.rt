//! Why a command stopped.
ghost use Rattle.std.specs.Prelude.{◌≡◌};
ghost use Rattle.bundle_reader.specs.declared.fault.ReadFault.TheVariants.{Folder};
ghost use Rattle.command_reports.specs.Refusals.{unread_as};
ghost use Rattle.command_reports.specs.Report.{column_number, entry_rule_name, fault_name, line_number, refusal_status};

use crate::files::CommandFile;
use crate::status::Status;
use bundle_reader::{LoadFault, P4Fault, ReadFault};
use cocoon_io::FolderFault;
use cocoon_num::{LimitName, List, NoMemory, Text};
use cocoon_resolve::rule_name;
use cocoon_text::{Position, TextFault};
use cocoon_types::TypeRule;
use net_bundle::{BundleFault, BundleFile};
use net_wiring::Wiring;
use std::alloc::AllocError;

/// What is wrong with a design.
#[derive(Clone, Copy, Drop)]
pub enum InputFault {
    /// It has no tree, and this is its first fault.
    NoTree(TextFault),
    /// It has a tree, and this is the first rule that it breaks, with the position of the fault.
    Rule(TypeRule, Position),
}

impl InputFault {
    /// The line of its position, from 1.
    pub fn line(&self) -> u32
        ensures { result ≡ line_number self.now }
    {
        match self {
            InputFault::NoTree(fault) => fault.line,
            InputFault::Rule(_, position) => position.line,
        }
    }

    /// The column of its position, in bytes from 1.
    pub fn column(&self) -> u32
        ensures { result ≡ column_number self.now }
    {
        match self {
            InputFault::NoTree(fault) => fault.column,
            InputFault::Rule(_, position) => position.column,
        }
    }

    /// Its name in a report.
    pub fn name(&self) -> &'static str
        ensures { result.now ≡ fault_name self.now }
    {
        match self {
            InputFault::NoTree(fault) => fault.kind.name(),
            InputFault::Rule(rule, _) => rule_name(*rule),
        }
    }
}

/// A rule that an entry of definitions breaks.
#[derive(Clone, Copy, Drop)]
pub enum EntryRule {
    /// The name is no function that is defined at run time.
    UnknownFunction,
    /// Another number of patterns than the function has parameters, or a pattern, mask or value of
    /// another type.
    WrongRow,
    /// A second default of a function.
    TwoDefaults,
    /// Neither literal nor the default `false`, of a function of a host or switch guard.
    GuardRows,
    /// The same of a function under a `fork` of the last level.
    ForkRows,
}

impl EntryRule {
    /// Its name in a report.
    pub fn name(self) -> &'static str
        ensures { result.now ≡ entry_rule_name self }
    {
        match self {
            EntryRule::UnknownFunction => "UnknownFunction",
            EntryRule::WrongRow => "WrongRow",
            EntryRule::TwoDefaults => "TwoDefaults",
            EntryRule::GuardRows => "GuardRows",
            EntryRule::ForkRows => "ForkRows",
        }
    }
}

/// What is wrong with definitions.
#[derive(Drop)]
pub enum DefinitionsFault {
    /// They have no tree, and this is their first fault.
    NoTree(TextFault),
    /// An entry breaks this rule first; the position is that of its name.
    Entry(EntryRule, Position),
    /// The function of this name has no default.
    NoDefault(Text),
}

/// What is wrong with a file of a bundle that is read, or with what it says. A fault that is held here is never its own
/// `NoMemory`.
#[derive(Drop)]
pub enum BundleCause {
    Missing,
    /// The digest of its bytes, and the one that is kept of it in the file of the network.
    Stale(Text, Text),
    NotJson,
    P4(P4Fault),
    /// The pointer of the member that is not of its form, or no text.
    Shape(Text),
    Load(LoadFault),
    /// The certificate of this number does not show its obligation.
    Refused(u32),
    /// There are so many certificates, and so many obligations.
    Count(u32, u32),
    /// The wires are other ones: this is the first difference.
    Wiring(Wiring),
}

/// Why a command stopped, with the file that it is about.
#[derive(Drop)]
pub enum Refusal {
    /// The design has this fault.
    Language(InputFault),
    /// The definitions have this fault.
    Definitions(DefinitionsFault),
    /// The assumption of this number is false at these values, one for each of its parameters.
    Broken(u32, List<u64>),
    ReadFault(CommandFile),
    WriteFault(CommandFile),
    /// The file has more bytes than this number.
    TooLong(CommandFile, u64),
    /// The design or the definitions are over this limit, by this count.
    OverLimit(LimitName, u64),
    /// The level of the first number is over the last level, whose number is the second.
    NoLevel(u64, u64),
    /// The line of this number is the first of the file that is not of its form.
    Line(CommandFile, u64),
    /// The line of this number names a host that the network has not.
    NoHost(CommandFile, u64),
    /// This file of the bundle is not as it should be.
    Unread(BundleFile, BundleCause),
    NoMemory,
    NoFile(CommandFile),
}

impl From<NoMemory> for Refusal {
    ghost use Rattle.std.specs.Prelude.{◌≡◌};
    ghost use Rattle.command_reports.specs.declared.refusal.Refusal.TheVariants.{NoMemory};

    ghost from_gives = { λ _ r. r ≡ NoMemory };

    fn from(_: NoMemory) -> Refusal {
        Refusal::NoMemory
    }
}

impl From<AllocError> for Refusal {
    ghost use Rattle.std.specs.Prelude.{◌≡◌};
    ghost use Rattle.command_reports.specs.declared.refusal.Refusal.TheVariants.{NoMemory};

    ghost from_gives = { λ _ r. r ≡ NoMemory };

    fn from(_: AllocError) -> Refusal {
        Refusal::NoMemory
    }
}

impl From<BundleFault> for Refusal {
    ghost use Rattle.std.specs.Prelude.{◌≡◌};
    ghost use Rattle.command_reports.specs.Refusals.{bundle_refusal};

    ghost from_gives = { λ fault r. r ≡ bundle_refusal fault };

    fn from(fault: BundleFault) -> Refusal {
        match fault {
            BundleFault::Folder(file, _) => Refusal::WriteFault(CommandFile::Bundle(file)),
            BundleFault::Limit(file) => Refusal::TooLong(CommandFile::Bundle(file), file.most()),
            BundleFault::NoMemory => Refusal::NoMemory,
        }
    }
}

/// What is told of a bundle that is not read.
pub fn unread(fault: ReadFault) -> Refusal
    ensures { result ≡ unread_as fault }
{
    match fault {
        ReadFault::Missing(file) => Refusal::Unread(file, BundleCause::Missing),
        ReadFault::Folder(file, fault) => unread_file(file, fault),
        ReadFault::Stale(file, found, kept) => {
            Refusal::Unread(file, BundleCause::Stale(found, kept))
        }
        ReadFault::NotJson(file) => Refusal::Unread(file, BundleCause::NotJson),
        ReadFault::P4(file, fault) => Refusal::Unread(file, BundleCause::P4(fault)),
        ReadFault::Shape(file, pointer) => Refusal::Unread(file, BundleCause::Shape(pointer)),
        ReadFault::Load(file, fault) => Refusal::Unread(file, BundleCause::Load(fault)),
        ReadFault::NoMemory => Refusal::NoMemory,
    }
}

/// The same of a file of it that the folder does not give.
fn unread_file(file: BundleFile, fault: FolderFault) -> Refusal
    ensures { result ≡ unread_as (Folder file fault) }
{
    match fault {
        FolderFault::Failed => Refusal::ReadFault(CommandFile::Bundle(file)),
        FolderFault::TooLong(_) => Refusal::TooLong(CommandFile::Bundle(file), file.most()),
        FolderFault::NoMemory => Refusal::NoMemory,
    }
}

impl Refusal {
    /// The status with which a command ends that stops so.
    pub fn status(&self) -> Status
        ensures { result ≡ refusal_status self.now }
    {
        match self {
            Refusal::Language(_) => Status::Language,
            Refusal::Definitions(_) => Status::Broken,
            Refusal::Broken(_, _) => Status::Broken,
            Refusal::ReadFault(_) => Status::ReadFault,
            Refusal::WriteFault(_) => Status::WriteFault,
            Refusal::TooLong(_, _) => Status::Limit,
            Refusal::OverLimit(_, _) => Status::Limit,
            Refusal::NoLevel(_, _) => Status::Limit,
            Refusal::Line(_, _) => Status::Lines,
            Refusal::NoHost(_, _) => Status::Lines,
            Refusal::Unread(_, _) => Status::Bundle,
            Refusal::NoMemory => Status::NoMemory,
            Refusal::NoFile(_) => Status::NoFile,
        }
    }
}
