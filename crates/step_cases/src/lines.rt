//! The three lines of a case.
ghost use Rattle.std.specs.Prelude.{◌≡◌, ◌<◌, ◌^◌, ◌-◌, IfErr, IfOk, map, option_map};
ghost use Rattle.cocoon_syntax.specs.TreeOf.{design_of};
ghost use Rattle.text_lines.specs.LineOf.{line_of};
ghost use Rattle.text_lines.specs.Numbers.{list_of};
ghost use Rattle.step_cases.specs.Agrees.{CanRun, IsCaseOf, IsFaultOf};
ghost use Rattle.step_cases.specs.Cases as spec;
ghost use Rattle.step_cases.specs.Reading.{ActsAs, AnswersAs, AreNumbers, IsLocation, LineIs, Locates, NoLine};

use crate::case::{Case, CaseFault};
use crate::fit::{fields_fit, values_fit};
use cocoon_num::NoMemory;
use cocoon_resolve::Checked;
use declarations::RoleId;
use std::alloc::Global;
use text_lines::{Line, Lines, read_list, split_lines, split_parts};

/// A role with values of its parameters.
#[derive(Drop)]
struct Location {
    role: RoleId,
    values: Vec<u64>,
}

/// The number of a role that is there at a level and has a body, if these are values of it.
fn acting_role(checked: &Checked, level: u32, name: &[u8], values: &[u64]) -> Option<RoleId>
    ensures { ActsAs (design_of checked.now) level name.now values.now result }
{
    let names = checked.names();
    let design = checked.design();
    let number = names.role_of(design, name)?;
    let role = names.role_at(design, name, level)?;
    if role.body.is_some() && values_fit(&role.params, values) {
        Some(number)
    } else {
        None
    }
}

/// The location that the parts of a line say.
fn location_in(
    alloc: Global,
    checked: &Checked,
    level: u32,
    parts: &[&[u8]],
) -> Result<Option<Location>, NoMemory>
    ensures { IfOk result (Locates (design_of checked.now)
        (spec.location_in level (design_of checked.now) (map (λ part. part.now) parts.now))) }
{
    let Some((name, rest)) = parts.split_first() else {
        return Ok(None);
    };
    let Some(values) = read_list(alloc, rest)? else {
        return Ok(None);
    };
    match acting_role(checked, level, name, &values) {
        Some(role) => Ok(Some(Location { role, values })),
        None => Ok(None),
    }
}

/// The values of all fields that the parts of a line say.
fn fields_in(
    alloc: Global,
    checked: &Checked,
    parts: &[&[u8]],
) -> Result<Option<Vec<u64>>, NoMemory>
    ensures { IfOk result (λ fields. option_map (λ v. v.items) fields
        ≡ spec.fields_in (design_of checked.now) (map (λ part. part.now) parts.now)) }
{
    match read_list(alloc, parts)? {
        Some(fields) if fields_fit(checked.field_widths(), &fields) => Ok(Some(fields)),
        _ => Ok(None),
    }
}

/// The line of this index among those that are not empty.
fn line_at<'t>(lines: &Lines<'t>, index: usize) -> Result<Line<'t>, CaseFault>
    requires { lines.now.count < 2 ^ 64 - 1 }
    ensures { LineIs (map line_of lines.now.filled.items) lines.now.count index result }
{
    match lines.filled.get(index) {
        Some(line) => Ok(*line),
        None => Err(CaseFault::Form(lines.count + 1)),
    }
}

/// The first line: a role with its values.
fn first_line(
    alloc: Global,
    checked: &Checked,
    level: u32,
    lines: &Lines<'_>,
) -> Result<Location, CaseFault>
    requires { lines.now.count < 2 ^ 64 - 1 }
    ensures { AnswersAs (IsLocation (design_of checked.now))
        (spec.line_at (spec.location_in level (design_of checked.now)) 0
        (map line_of lines.now.filled.items) lines.now.count)
        result }
{
    let line = line_at(lines, 0)?;
    let parts = split_parts(alloc, line.bytes)?;
    location_in(alloc, checked, level, &parts)?.ok_or(CaseFault::Form(line.number))
}

/// The second line: the values of all fields.
fn second_line(alloc: Global, checked: &Checked, lines: &Lines<'_>) -> Result<Vec<u64>, CaseFault>
    requires { lines.now.count < 2 ^ 64 - 1 }
    ensures { AnswersAs AreNumbers
        (spec.line_at (spec.fields_in (design_of checked.now)) 1
        (map line_of lines.now.filled.items) lines.now.count)
        result }
{
    let line = line_at(lines, 1)?;
    let parts = split_parts(alloc, line.bytes)?;
    fields_in(alloc, checked, &parts)?.ok_or(CaseFault::Form(line.number))
}

/// The third line: the choices.
fn third_line(alloc: Global, lines: &Lines<'_>) -> Result<Vec<u64>, CaseFault>
    requires { lines.now.count < 2 ^ 64 - 1 }
    ensures { AnswersAs AreNumbers
        (spec.line_at list_of 2 (map line_of lines.now.filled.items) lines.now.count) result }
{
    let line = line_at(lines, 2)?;
    let parts = split_parts(alloc, line.bytes)?;
    read_list(alloc, &parts)?.ok_or(CaseFault::Form(line.number))
}

/// There is no fourth line that is not empty.
fn no_fourth_line(lines: &Lines<'_>) -> Result<(), CaseFault>
    ensures { NoLine (spec.number_at 3 (map line_of lines.now.filled.items)) result }
{
    match lines.filled.get(3) {
        Some(line) => Err(CaseFault::Form(line.number)),
        None => Ok(()),
    }
}

/// The case of these bytes, at a level of a design. A line ends with a line feed or at the end, empty lines are skipped and
/// counted, and one space separates the parts of a line.
///
/// The first line is a role and the values of its parameters. The role has to be there at the level, and to have a body. The
/// second line is the values of all fields, header by header; the third is the choices. A list without numbers is `-`; behind
/// a role without parameters it may be left out. The forms of the lines are tested in their order. A line that is missing
/// counts as the one after the file's last.
#[tactic(auto, unfolding(crate::specs::Cases::case_of))]
pub fn read_case(
    alloc: Global,
    checked: &Checked,
    level: u32,
    bytes: &[u8],
) -> Result<Case, CaseFault>
    ensures runs { IfOk result (CanRun level (design_of checked.now)) }
    ensures read { IfOk result (IsCaseOf level (design_of checked.now) bytes.now) }
    ensures refused { IfErr result (IsFaultOf level (design_of checked.now) bytes.now) }
{
    let lines = split_lines(alloc, bytes)?;
    let location = first_line(alloc, checked, level, &lines)?;
    let fields = second_line(alloc, checked, &lines)?;
    let choices = third_line(alloc, &lines)?;
    no_fourth_line(&lines)?;
    Ok(Case {
        role: location.role,
        values: location.values,
        fields,
        choices,
    })
}
