//! In which part of a table each row is looked up. No answer depends on it, but the time that a look-up takes.
ghost use Rattle.std.specs.Prelude.{All, ◌≡◌, ◌<◌, ◌≤◌, IfOk, length};

use cocoon_num::NoMemory;
use p4_ir::KeyRow;
use std::alloc::Global;
use std::collections::BTreeMap;

/// So many rows with the same masks are a part of their own: fewer are looked at one by one in less time than a search takes.
const FEWEST: usize = 16;
/// At most so many parts have masks, which bounds the time of laying.
const MOST: u8 = 64;

/// For the masks of rows, how many rows have them.
#[derive(Drop)]
struct MaskCounts {
    counts: BTreeMap<Vec<u64>, usize>,
}

impl MaskCounts {
    fn of(alloc: Global, rows: &[KeyRow]) -> Result<MaskCounts, NoMemory> {
        let mut counts = BTreeMap::new(alloc);
        for row in rows {
            count_masks(alloc, &mut counts, row.masks.items())?;
        }
        Ok(MaskCounts { counts })
    }
}

fn count_masks(
    alloc: Global,
    counts: &mut BTreeMap<Vec<u64>, usize>,
    masks: &[u64],
) -> Result<(), NoMemory> {
    if let Some(count) = counts.get_mut(masks) {
        *count = count.saturating_add(1);
        return Ok(());
    }
    counts.insert(masks.to_vec(alloc)?, 1)?;
    Ok(())
}

/// The number of the part of some masks. That of all others is the one behind them.
#[derive(Drop)]
struct MaskParts {
    numbers: BTreeMap<Vec<u64>, u8>,
    others: u8,
}

impl MaskParts {
    fn of(alloc: Global, counted: &MaskCounts) -> Result<MaskParts, NoMemory> {
        let mut numbers = BTreeMap::new(alloc);
        let mut others = 0;
        for (masks, count) in &counted.counts {
            if *count >= FEWEST && others < MOST {
                numbers.insert(masks.as_slice().to_vec(alloc)?, others)?;
                others += 1;
            }
        }
        Ok(MaskParts { numbers, others })
    }

    fn part(&self, masks: &[u64]) -> u8 {
        self.numbers.get(masks).copied().unwrap_or(self.others)
    }
}

/// For each row the number of its part.
pub(crate) fn part_numbers(alloc: Global, rows: &[KeyRow]) -> Result<Vec<u8>, NoMemory>
    ensures { IfOk result (λ numbers. length numbers.items ≡ length rows.now) }
{
    let counted = MaskCounts::of(alloc, rows)?;
    let of_masks = MaskParts::of(alloc, &counted)?;
    let mut numbers = Vec::new(alloc);
    for row in rows {
        numbers.push(of_masks.part(row.masks.items()))?;
    }
    Ok(numbers)
}

/// So many parts, or one more than this number where that is more.
fn raised(count: usize, number: u8) -> usize
    ensures more { count ≤ result }
    ensures above { number < result }
{
    if usize::from(number) < count {
        count
    } else {
        usize::from(number) + 1
    }
}

/// How many parts there are.
pub(crate) fn part_count(numbers: &[u8]) -> usize
    ensures { All (λ number. number < result) numbers.now }
{
    let mut count = 0;
    for number in numbers {
        count = raised(count, *number);
    }
    count
}
