//! The files that a command reads and writes.
ghost use Rattle.std.specs.Prelude.{◌≡◌, IfOk, Some, option_map, string_bytes};
ghost use Rattle.command_reports.specs.FileNames.{IsWanted, budget_name, bundle_in, name_of, names_in, no_names, wanted, with_most};

use cocoon_num::NoMemory;
use net_bundle::BundleFile;
use std::alloc::Global;

/// The numbers of bytes that a design, definitions, a case and a file of packets may have.
const DESIGN_MOST: u64 = 1_048_576;

const DEFINITIONS_MOST: u64 = 4_194_304;

const CASE_MOST: u64 = 65_536;

const PACKETS_MOST: u64 = 16_777_216;

/// A file of a command, by what it is to the command.
#[derive(Clone, Copy, Debug, Drop)]
pub enum CommandFile {
    Design,
    Definitions,
    /// A file of the bundle.
    Bundle(BundleFile),
    /// The case of a step.
    Case,
    /// The packets that are forwarded.
    Packets,
    /// On what a budget was spent.
    Budget,
}

/// The name of a file that a command reads, and the most bytes that it may have.
#[derive(Clone, Copy, Debug, Drop)]
pub struct Wanted<'w> {
    pub name: &'w str,
    pub most: u64,
}

/// The names that a command gives its files; none for a kind that it has not.
#[derive(Clone, Copy, Debug, Drop)]
pub struct FileNames<'w> {
    pub design: Option<&'w str>,
    pub definitions: Option<&'w str>,
    pub case: Option<&'w str>,
    pub packets: Option<&'w str>,
    /// The name with which those of the files of its bundle begin.
    pub bundle: Option<&'w str>,
    /// Whether the bundle is read.
    pub reads_bundle: bool,
    /// Whether the command makes its texts itself, and reads none.
    pub makes_texts: bool,
}

impl<'w> FileNames<'w> {
    /// Those of a command that has no files.
    pub fn none() -> FileNames<'w>
        ensures { names_in result ≡ no_names }
    {
        FileNames {
            design: None,
            definitions: None,
            case: None,
            packets: None,
            bundle: None,
            reads_bundle: false,
            makes_texts: false,
        }
    }

    /// The name of a file, if there is one of this kind.
    pub fn name(&self, alloc: Global, file: CommandFile) -> Result<Option<String>, NoMemory>
        ensures { IfOk result (λ name.
            option_map string_bytes name ≡ name_of (names_in self.now) file) }
    {
        match file {
            CommandFile::Design => owned(alloc, self.design),
            CommandFile::Definitions => owned(alloc, self.definitions),
            CommandFile::Case => owned(alloc, self.case),
            CommandFile::Packets => owned(alloc, self.packets),
            CommandFile::Bundle(file) => match self.bundle {
                Some(out) => Ok(Some(file.whole_name(alloc, out)?)),
                None => Ok(None),
            },
            CommandFile::Budget => budget_name(alloc, self.design),
        }
    }

    /// The file, if one of this kind is read by a name of its own.
    pub fn wanted(&self, file: CommandFile) -> Option<Wanted<'w>>
        ensures { IsWanted (wanted (names_in self.now) file)
            (name_of (names_in self.now) file) result }
    {
        if self.makes_texts {
            return None;
        }
        match file {
            CommandFile::Design => with_most(DESIGN_MOST, self.design),
            CommandFile::Definitions => with_most(DEFINITIONS_MOST, self.definitions),
            CommandFile::Case => with_most(CASE_MOST, self.case),
            CommandFile::Packets => with_most(PACKETS_MOST, self.packets),
            CommandFile::Bundle(_) | CommandFile::Budget => None,
        }
    }

    /// The bundle that is read.
    pub fn bundle_read(&self) -> Option<&'w str>
        ensures { option_map (λ name. name.now) result ≡ bundle_in (names_in self.now) }
    {
        if self.reads_bundle { self.bundle } else { None }
    }
}

/// A name of its own.
fn owned(alloc: Global, name: Option<&str>) -> Result<Option<String>, NoMemory>
    ensures { IfOk result (λ owned.
        option_map string_bytes owned ≡ option_map (λ name. name.now) name.entry) }
{
    match name {
        Some(name) => Ok(Some(String::from_str(alloc, name)?)),
        None => Ok(None),
    }
}

/// The name of the file of a spent budget, by that of the design.
fn budget_name(alloc: Global, design: Option<&str>) -> Result<Option<String>, NoMemory>
    ensures { IfOk result (λ name. option_map string_bytes name
        ≡ option_map budget_name (option_map (λ name. name.now) design.entry)) }
{
    match design {
        Some(design) => Ok(Some(format!(in alloc; "{design}.budget.json")?)),
        None => Ok(None),
    }
}

/// The file of this name, with at most so many bytes.
fn with_most<'w>(most: u64, name: Option<&'w str>) -> Option<Wanted<'w>>
    ensures { IsWanted (with_most (Some most) (option_map (λ name. name.now) name.entry))
        (option_map (λ name. name.now) name.entry) result }
{
    match name {
        Some(name) => Some(Wanted { name, most }),
        None => None,
    }
}
