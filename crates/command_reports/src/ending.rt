//! How an outcome ends the program: its status, and the line of a refusal. A line about a file is none
//! where the command has no file of the kind.
ghost use Rattle.std.specs.Prelude.{◌≡◌, ◌++◌, codes, IfOk, Some, option_map, string_bytes};
ghost use Rattle.command_reports.specs.FileNames.{name_of, names_in};
ghost use Rattle.command_reports.specs.declared.files.CommandFile.TheVariants.{Bundle};
ghost use Rattle.command_reports.specs.Report.{HasBytes, broken_line, bundle_line, cause_text, count_text, definitions_line, fault_line, form_line, host_line, language_line, level_line, limit_line, line_with, load_text, most_allowed, no_default_line, over_line, p4_text, pointer_text, refusal_line, refused_text, stale_text, status_of, wiring_text};

use crate::files::{CommandFile, FileNames};
use crate::numbers::push_list;
use crate::refusal::{BundleCause, DefinitionsFault, InputFault, Refusal};
use crate::report::Report;
use crate::status::Status;
use bundle_reader::{LoadFault, P4Fault};
use cocoon_num::{LimitName, NoMemory};
use cocoon_resolve::most_of;
use cocoon_text::Position;
use lower_p4::{MOST_HOSTS, MOST_MEMBERS, MOST_SITES, MOST_SWITCHES, MOST_TABLES};
use net_bundle::BundleFile;
use net_wiring::Wiring;
use packet_runs::{MOST_BYTES, MOST_RUNS};
use runtime_defs::MOST_ROWS;
use std::alloc::Global;

/// The most leaves of one tree, and the most clauses of one query.
const MOST_LEAVES: u64 = 4096;

const MOST_CLAUSES: u64 = 4_000_000;

/// A line that ends with the name of a file of the command.
fn line_with(
    alloc: Global,
    prefix: &str,
    names: &FileNames<'_>,
    file: CommandFile,
) -> Result<Option<String>, NoMemory>
    ensures { IfOk result (λ line. option_map string_bytes line
        ≡ option_map (line_with prefix.now) (name_of (names_in names.now) file)) }
{
    let Some(name) = names.name(alloc, file)? else {
        return Ok(None);
    };
    Ok(Some(format!(in alloc; "{prefix}{name}\n")?))
}

/// The line of a file that has more bytes than it may have.
fn limit_line(
    alloc: Global,
    names: &FileNames<'_>,
    file: CommandFile,
    most: u64,
) -> Result<Option<String>, NoMemory>
    ensures { IfOk result (λ line. option_map string_bytes line
        ≡ option_map (λ name. limit_line name most) (name_of (names_in names.now) file)) }
{
    let Some(name) = names.name(alloc, file)? else {
        return Ok(None);
    };
    Ok(Some(format!(in alloc; "limit file {name} over {most}\n")?))
}

/// The most that a count of a limit may be. That of a file and that of a level are others for each
/// kind of file and each design.
fn most_allowed(limit: LimitName) -> Option<u64>
    ensures { result ≡ most_allowed limit }
{
    match limit {
        LimitName::File | LimitName::Level => None,
        LimitName::Refines
        | LimitName::Within
        | LimitName::Ports
        | LimitName::Roles
        | LimitName::Functions
        | LimitName::Assumptions
        | LimitName::Params
        | LimitName::Headers
        | LimitName::Fields
        | LimitName::Paths
        | LimitName::Expanded => Some(most_of(limit)),
        LimitName::Leaves => Some(MOST_LEAVES),
        LimitName::Clauses => Some(MOST_CLAUSES),
        LimitName::Rows => Some(MOST_ROWS),
        LimitName::Switches => Some(MOST_SWITCHES),
        LimitName::Hosts => Some(MOST_HOSTS),
        LimitName::Tables => Some(MOST_TABLES),
        LimitName::Sites => Some(MOST_SITES),
        LimitName::Members => Some(MOST_MEMBERS),
        LimitName::Copies => Some(MOST_RUNS),
        LimitName::Packet => Some(MOST_BYTES),
    }
}

/// The line of a design or definitions that are over a limit by this count.
fn over_line(alloc: Global, limit: LimitName, count: u64) -> Result<Option<String>, NoMemory>
    ensures { IfOk result (λ line.
        option_map string_bytes line ≡ Some (over_line limit count)) }
{
    let name = limit.text();
    match most_allowed(limit) {
        Some(most) => Ok(Some(format!(in alloc; "limit {name} {count} over {most}\n")?)),
        None => Ok(Some(format!(in alloc; "limit {name} {count}\n")?)),
    }
}

/// The line of a fault that stands in a design.
fn language_line(
    alloc: Global,
    names: &FileNames<'_>,
    fault: &InputFault,
) -> Result<Option<String>, NoMemory>
    ensures { IfOk result (λ line. option_map string_bytes line
        ≡ option_map (λ name. language_line name fault.now)
        (name_of (names_in names.now) CommandFile.Design)) }
{
    let Some(name) = names.name(alloc, CommandFile::Design)? else {
        return Ok(None);
    };
    let line = fault.line();
    let column = fault.column();
    let kind = fault.name();
    Ok(Some(format!(in alloc; "language {name} {line}:{column} {kind}\n")?))
}

/// The line of a fault that stands in definitions.
fn entry_line(
    alloc: Global,
    file: &str,
    position: Position,
    kind: &str,
) -> Result<Option<String>, NoMemory>
    ensures { IfOk result (λ text. option_map string_bytes text
        ≡ Some (fault_line (codes "definitions") file.now position.line position.column kind.now)) }
{
    let Position { line, column } = position;
    Ok(Some(format!(in alloc; "definitions {file} {line}:{column} {kind}\n")?))
}

/// The line of a function without a default.
fn no_default_line(alloc: Global, file: &str, name: &[u8]) -> Result<Vec<u8>, NoMemory>
    ensures { IfOk result (λ line. line.items ≡ no_default_line file.now name.now) }
{
    let mut line = format!(in alloc; "definitions {file} NoDefault ")?.into_bytes();
    line.extend_from_slice(name)?;
    line.push(b'\n')?;
    Ok(line)
}

/// The line of a fault of definitions.
fn definitions_line(
    alloc: Global,
    names: &FileNames<'_>,
    fault: &DefinitionsFault,
) -> Result<Option<Vec<u8>>, NoMemory>
    ensures { IfOk result (λ line. option_map (λ l. l.items) line
        ≡ option_map (λ name. definitions_line name fault.now)
        (name_of (names_in names.now) CommandFile.Definitions)) }
{
    let Some(file) = names.name(alloc, CommandFile::Definitions)? else {
        return Ok(None);
    };
    match fault {
        DefinitionsFault::NoTree(fault) => {
            let position = Position {
                line: fault.line,
                column: fault.column,
            };
            bytes_of(entry_line(alloc, &file, position, fault.kind.name()))
        }
        DefinitionsFault::Entry(rule, position) => {
            bytes_of(entry_line(alloc, &file, *position, rule.name()))
        }
        DefinitionsFault::NoDefault(name) => {
            Ok(Some(no_default_line(alloc, &file, name.bytes())?))
        }
    }
}

/// The line of a level that is over the last one.
fn level_line(alloc: Global, level: u64, last: u64) -> Result<Option<String>, NoMemory>
    ensures { IfOk result (λ line.
        option_map string_bytes line ≡ Some (level_line level last)) }
{
    Ok(Some(format!(in alloc; "limit level {level} over {last}\n")?))
}

/// The line of a file of which this line is not of its form.
fn form_line(
    alloc: Global,
    names: &FileNames<'_>,
    file: CommandFile,
    number: u64,
) -> Result<Option<String>, NoMemory>
    ensures { IfOk result (λ line. option_map string_bytes line
        ≡ option_map (λ name. form_line name number) (name_of (names_in names.now) file)) }
{
    let Some(name) = names.name(alloc, file)? else {
        return Ok(None);
    };
    Ok(Some(format!(in alloc; "line {name} {number} Form\n")?))
}

/// The line of a file of which this line names a host that is not there.
fn host_line(
    alloc: Global,
    names: &FileNames<'_>,
    file: CommandFile,
    number: u64,
) -> Result<Option<String>, NoMemory>
    ensures { IfOk result (λ line. option_map string_bytes line
        ≡ option_map (λ name. host_line name number) (name_of (names_in names.now) file)) }
{
    let Some(name) = names.name(alloc, file)? else {
        return Ok(None);
    };
    Ok(Some(format!(in alloc; "line {name} {number} NoSuchHost\n")?))
}

/// A fault of a program, by its kind and where it stands.
fn p4_text(alloc: Global, fault: P4Fault) -> Result<String, NoMemory>
    ensures { IfOk result (λ text. string_bytes text ≡ p4_text fault) }
{
    match fault {
        P4Fault::Lex(at) => Ok(format!(in alloc; "Lex {at}")?),
        P4Fault::Unexpected(at) => Ok(format!(in alloc; "Unexpected {at}")?),
        P4Fault::TooDeep(at) => Ok(format!(in alloc; "TooDeep {at}")?),
        P4Fault::Kind(at) => Ok(format!(in alloc; "Kind {at}")?),
        P4Fault::NoMemory => Ok(String::from_str(alloc, "NoMemory")?),
    }
}

/// A fault of rows, by its kind and its numbers.
fn load_text(alloc: Global, fault: &LoadFault) -> Result<String, NoMemory>
    ensures { IfOk result (λ text. string_bytes text ≡ load_text fault.now) }
{
    match fault {
        LoadFault::MissingTable(table) => Ok(format!(in alloc; "MissingTable {table}")?),
        LoadFault::UnknownTable(table) => Ok(format!(in alloc; "UnknownTable {table}")?),
        LoadFault::RowShape(table, row) => Ok(format!(in alloc; "RowShape {table} {row}")?),
        LoadFault::GroupShape(index) => Ok(format!(in alloc; "GroupShape {index}")?),
        LoadFault::NoMemory => Ok(String::from_str(alloc, "NoMemory")?),
    }
}

/// The pointer of a member, or `-` where there is none.
fn pointer_text(pointer: &[u8]) -> &[u8]
    ensures { result.now ≡ pointer_text pointer.now }
{
    if pointer.is_empty() { b"-" } else { pointer }
}

/// A digest that was found, and the one that is kept.
fn stale_text(alloc: Global, found: &[u8], kept: &[u8]) -> Result<Vec<u8>, NoMemory>
    ensures { IfOk result (λ text. text.items ≡ stale_text found.now kept.now) }
{
    let mut text = b"stale ".to_vec(alloc)?;
    text.extend_from_slice(found)?;
    text.push(b' ')?;
    text.extend_from_slice(kept)?;
    Ok(text)
}

/// Two texts, one behind the other.
fn joined(alloc: Global, first: &[u8], second: &[u8]) -> Result<Vec<u8>, NoMemory>
    ensures { IfOk result (λ text. text.items ≡ first.now ++ second.now) }
{
    let mut text = first.to_vec(alloc)?;
    text.extend_from_slice(second)?;
    Ok(text)
}

/// The number of a certificate that is refused.
fn refused_text(alloc: Global, number: u32) -> Result<String, NoMemory>
    ensures { IfOk result (λ text. string_bytes text ≡ refused_text number) }
{
    Ok(format!(in alloc; "refused {number}")?)
}

/// The number of certificates that were found, and that of the obligations.
fn count_text(alloc: Global, found: u32, wanted: u32) -> Result<String, NoMemory>
    ensures { IfOk result (λ text. string_bytes text ≡ count_text found wanted) }
{
    Ok(format!(in alloc; "count {found} {wanted}")?)
}

/// Where wires differ first.
fn wiring_text(alloc: Global, wiring: Wiring) -> Result<String, NoMemory>
    ensures { IfOk result (λ text. string_bytes text ≡ wiring_text wiring) }
{
    match wiring {
        Wiring::Ports => Ok(String::from_str(alloc, "wiring ports")?),
        Wiring::Switches(at) => Ok(format!(in alloc; "wiring switches {at}")?),
        Wiring::Hosts(at) => Ok(format!(in alloc; "wiring hosts {at}")?),
        Wiring::Links(at) => Ok(format!(in alloc; "wiring links {at}")?),
        Wiring::Programs(at) => Ok(format!(in alloc; "wiring programs {at}")?),
    }
}

/// What is wrong with a file of a bundle.
fn cause_text(alloc: Global, cause: &BundleCause) -> Result<Vec<u8>, NoMemory>
    ensures { IfOk result (λ text. text.items ≡ cause_text cause.now) }
{
    match cause {
        BundleCause::Missing => Ok(b"missing".to_vec(alloc)?),
        BundleCause::Stale(found, kept) => stale_text(alloc, found.bytes(), kept.bytes()),
        BundleCause::NotJson => Ok(b"notjson".to_vec(alloc)?),
        BundleCause::P4(fault) => joined(alloc, b"p4 ", p4_text(alloc, *fault)?.as_bytes()),
        BundleCause::Shape(pointer) => joined(alloc, b"shape ", pointer_text(pointer.bytes())),
        BundleCause::Load(fault) => joined(alloc, b"load ", load_text(alloc, fault)?.as_bytes()),
        BundleCause::Refused(number) => Ok(refused_text(alloc, *number)?.into_bytes()),
        BundleCause::Count(found, wanted) => Ok(count_text(alloc, *found, *wanted)?.into_bytes()),
        BundleCause::Wiring(wiring) => Ok(wiring_text(alloc, *wiring)?.into_bytes()),
    }
}

/// The line of a file of a bundle that is not as it should be.
fn bundle_line(
    alloc: Global,
    names: &FileNames<'_>,
    file: BundleFile,
    cause: &BundleCause,
) -> Result<Option<Vec<u8>>, NoMemory>
    ensures { IfOk result (λ line. option_map (λ l. l.items) line
        ≡ option_map (λ name. bundle_line name cause.now)
        (name_of (names_in names.now) (Bundle file))) }
{
    let Some(name) = names.name(alloc, CommandFile::Bundle(file))? else {
        return Ok(None);
    };
    let cause = cause_text(alloc, cause)?;
    let mut line = format!(in alloc; "bundle {name} ")?.into_bytes();
    line.extend_from_slice(&cause)?;
    line.push(b'\n')?;
    Ok(Some(line))
}

/// The line of an assumption that is false at these values.
fn broken_line(alloc: Global, number: u32, values: &[u64]) -> Result<Vec<u8>, NoMemory>
    ensures { IfOk result (λ line. line.items ≡ broken_line number values.now) }
{
    let mut line = format!(in alloc; "broken assumption {number} at")?.into_bytes();
    push_list(alloc, &mut line, values)?;
    line.push(b'\n')?;
    Ok(line)
}

/// The bytes of a line that was made.
fn bytes_of(line: Result<Option<String>, NoMemory>) -> Result<Option<Vec<u8>>, NoMemory>
    ensures { HasBytes line result }
{
    match line? {
        Some(line) => Ok(Some(line.into_bytes())),
        None => Ok(None),
    }
}

/// The line of a command that stopped.
pub fn refusal_line(
    alloc: Global,
    names: &FileNames<'_>,
    refusal: &Refusal,
) -> Result<Option<Vec<u8>>, NoMemory>
    ensures { IfOk result (λ line. option_map (λ l. l.items) line
        ≡ refusal_line (names_in names.now) refusal.now) }
{
    match refusal {
        Refusal::Language(fault) => bytes_of(language_line(alloc, names, fault)),
        Refusal::Definitions(fault) => definitions_line(alloc, names, fault),
        Refusal::Broken(number, values) => {
            Ok(Some(broken_line(alloc, *number, values.items())?))
        }
        Refusal::ReadFault(file) => bytes_of(line_with(alloc, "read fault ", names, *file)),
        Refusal::WriteFault(file) => bytes_of(line_with(alloc, "write fault ", names, *file)),
        Refusal::TooLong(file, most) => bytes_of(limit_line(alloc, names, *file, *most)),
        Refusal::OverLimit(limit, count) => bytes_of(over_line(alloc, *limit, *count)),
        Refusal::NoLevel(level, last) => bytes_of(level_line(alloc, *level, *last)),
        Refusal::Line(file, number) => bytes_of(form_line(alloc, names, *file, *number)),
        Refusal::NoHost(file, number) => bytes_of(host_line(alloc, names, *file, *number)),
        Refusal::Unread(file, cause) => bundle_line(alloc, names, *file, cause),
        Refusal::NoMemory => Ok(Some(b"no memory\n".to_vec(alloc)?)),
        Refusal::NoFile(file) => bytes_of(line_with(alloc, "no file ", names, *file)),
    }
}

/// The status with which a command of this outcome ends.
pub fn status_of(outcome: &Result<Report, Refusal>) -> Status
    ensures { result ≡ status_of outcome.now }
{
    match outcome {
        Ok(report) => Status::from(report.verdict),
        Err(refusal) => refusal.status(),
    }
}
