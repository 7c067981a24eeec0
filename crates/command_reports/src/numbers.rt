//! Lists of numbers in reports.
ghost use Rattle.std.specs.Prelude.{◌≡◌, ◌++◌, OnOk};
ghost use Rattle.command_reports.specs.Report.{list_text, spaced};

use cocoon_num::NoMemory;
use std::alloc::Global;

/// Some numbers, each behind a space.
fn push_numbers(alloc: Global, line: &mut Vec<u8>, numbers: &[u64]) -> Result<(), NoMemory>
    ensures { OnOk result (line.new.items ≡ line.old.items ++ spaced numbers.now) }
{
    for number in numbers {
        line.push(b' ')?;
        line.extend_from_slice(number.to_string(alloc)?.as_bytes())?;
    }
    Ok(())
}

/// A list of numbers behind a space, or `-` where it is empty.
pub fn push_list(alloc: Global, line: &mut Vec<u8>, numbers: &[u64]) -> Result<(), NoMemory>
    ensures { OnOk result (line.new.items ≡ line.old.items ++ list_text numbers.now) }
{
    if numbers.is_empty() {
        line.extend_from_slice(b" -")?;
        return Ok(());
    }
    push_numbers(alloc, line, numbers)
}
