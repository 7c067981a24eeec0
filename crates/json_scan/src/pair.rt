//! Arrays of two items, and objects of two members.
ghost use Rattle.std.specs.Prelude.{◌≡◌, Err, if◌then◌else◌, IfOk, IsTrue, None, OnOk, Some, option_map};
ghost use Rattle.serde_json.specs.Data.{Data, Members, put};
ghost use Rattle.json_forms.specs.Forms.{both_of};
ghost use Rattle.json_scan.specs.Pairs.{Holds, array_form, ascends, last_of, members_of, object_form, pair_of};
ghost use Rattle.json_scan.specs.Scanning.{Reads, ReadsItems, ReadsMembers, read_items, read_members, read_value};
ghost use Rattle.json_scan.specs.declared.fault.ScanFault.TheVariants.{NotJson};

use crate::fault::ScanFault;
use crate::pass::{no_items, no_members, pass};
use crate::scan::ScanJson;
use crate::start::{Start, begin};
use json::Reader;
use std::alloc::Global;

/// Reads a value: what each item of an array of two items stands for, where it is of its form.
pub fn scan_items<Kind, A: ScanJson<Kind> + Drop, B: ScanJson<Kind> + Drop>(
    alloc: Global,
    reader: &mut Reader<'_>,
    depth: usize,
) -> Result<Option<(Option<A>, Option<B>)>, ScanFault>
    ensures ok { IfOk result (λ read. Reads (array_form A.form B.form) depth reader.old
        (option_map (λ pair. (option_map A.meaning pair.0, option_map B.meaning pair.1)) read)
        reader.new) }
    ensures err { result ≡ Err NotJson → read_value depth reader.old ≡ None }
{
    let start = begin(reader, depth)?;
    match start {
        Start::Array(within) => items_of_two::<Kind, A, B>(alloc, reader, within),
        Start::Object(within) => no_members(reader, within),
        Start::Number(_) => Ok(None),
        Start::Other => Ok(None),
    }
}

/// Reads the items up to the bracket that closes their array, if there are two.
fn items_of_two<Kind, A: ScanJson<Kind> + Drop, B: ScanJson<Kind> + Drop>(
    alloc: Global,
    reader: &mut Reader<'_>,
    depth: usize,
) -> Result<Option<(Option<A>, Option<B>)>, ScanFault>
    ensures ok { IfOk result (λ read. ReadsItems (pair_of A.form B.form) depth reader.old
        (option_map (λ pair. (option_map A.meaning pair.0, option_map B.meaning pair.1)) read)
        reader.new) }
    ensures err { result ≡ Err NotJson → read_items depth reader.old ≡ None }
{
    if reader.take_end_array() {
        return Ok(None);
    }
    let first = A::scan(alloc, reader, depth)?;
    let last = last_item::<Kind, B>(alloc, reader, depth)?;
    match last {
        Some(second) => Ok(Some((first, second))),
        None => Ok(None),
    }
}

/// Reads the items up to the bracket that closes their array, if there is one.
fn last_item<Kind, B: ScanJson<Kind> + Drop>(
    alloc: Global,
    reader: &mut Reader<'_>,
    depth: usize,
) -> Result<Option<Option<B>>, ScanFault>
    ensures ok { IfOk result (λ read. ReadsItems (last_of B.form) depth reader.old
        (option_map (λ item. option_map B.meaning item) read) reader.new) }
    ensures err { result ≡ Err NotJson → read_items depth reader.old ≡ None }
{
    if reader.take_end_array() {
        return Ok(None);
    }
    let item = B::scan(alloc, reader, depth)?;
    if reader.take_end_array() {
        return Ok(Some(item));
    }
    no_items(reader, depth)
}

/// What was read of an object of two members so far.
#[derive(Drop)]
struct Pair<A, B> {
    /// The last value under the first key, where it is of its form.
    first: Option<Option<A>>,
    /// The same of the second key.
    second: Option<Option<B>>,
    /// Whether there is any other key.
    has_others: bool,
}

/// Reads a value: what each member of an object with these two keys stands for, where it is of its form. Of a key that stands
/// twice the last value counts.
pub fn scan_members<Kind, A: ScanJson<Kind> + Drop, B: ScanJson<Kind> + Drop>(
    alloc: Global,
    reader: &mut Reader<'_>,
    depth: usize,
    first_key: &str,
    second_key: &str,
) -> Result<Option<(Option<A>, Option<B>)>, ScanFault>
    requires ascending { IsTrue (ascends first_key.now second_key.now) }
    ensures ok { IfOk result (λ read.
        Reads (object_form A.form B.form first_key.now second_key.now) depth reader.old
        (option_map (λ pair. (option_map A.meaning pair.0, option_map B.meaning pair.1)) read)
        reader.new) }
    ensures err { result ≡ Err NotJson → read_value depth reader.old ≡ None }
{
    let start = begin(reader, depth)?;
    match start {
        Start::Object(within) => {
            two_members::<Kind, A, B>(alloc, reader, within, first_key, second_key)
        }
        Start::Array(within) => no_items(reader, within),
        Start::Number(_) => Ok(None),
        Start::Other => Ok(None),
    }
}

/// Reads the members up to the brace that closes their object.
fn two_members<Kind, A: ScanJson<Kind> + Drop, B: ScanJson<Kind> + Drop>(
    alloc: Global,
    reader: &mut Reader<'_>,
    depth: usize,
    first_key: &str,
    second_key: &str,
) -> Result<Option<(Option<A>, Option<B>)>, ScanFault>
    requires ascending { IsTrue (ascends first_key.now second_key.now) }
    ensures ok { IfOk result (λ read.
        ReadsMembers (members_of A.form B.form first_key.now second_key.now) depth reader.old
        (option_map (λ pair. (option_map A.meaning pair.0, option_map B.meaning pair.1)) read)
        reader.new) }
    ensures err { result ≡ Err NotJson → read_members depth reader.old ≡ None }
{
    let mut pair = Pair {
        first: None,
        second: None,
        has_others: false,
    };
    'members: while let Some(key) = reader.next_key()? {
        member::<Kind, A, B>(alloc, reader, depth, first_key, second_key, key, &mut pair)?;
    }
    Ok(values(pair))
}

/// The two values, where there is one under each key, and no other key.
fn values<A: Drop, B: Drop>(pair: Pair<A, B>) -> Option<(Option<A>, Option<B>)>
    ensures { result ≡ if pair.has_others then None
        else both_of (λ a b. (a, b)) pair.first pair.second }
{
    match (pair.first, pair.second) {
        (Some(first), Some(second)) if !pair.has_others => Some((first, second)),
        _ => None,
    }
}

/// Reads the value of the member with this key.
fn member<Kind, A: ScanJson<Kind> + Drop, B: ScanJson<Kind> + Drop>(
    alloc: Global,
    reader: &mut Reader<'_>,
    depth: usize,
    first_key: &str,
    second_key: &str,
    key: &str,
    pair: &mut Pair<A, B>,
) -> Result<(), ScanFault>
    requires ascending { IsTrue (ascends first_key.now second_key.now) }
    ensures ok { OnOk result ((d : Data) × (read_value depth reader.old ≡ Some (d, reader.new))
        × ((ms : Members)
        → Holds A.form B.form first_key.now second_key.now ms pair.old.has_others
        (option_map (option_map A.meaning) pair.old.first)
        (option_map (option_map B.meaning) pair.old.second)
        → Holds A.form B.form first_key.now second_key.now (put key.now d ms) pair.new.has_others
        (option_map (option_map A.meaning) pair.new.first)
        (option_map (option_map B.meaning) pair.new.second))) }
    ensures err { result ≡ Err NotJson → read_value depth reader.old ≡ None }
{
    if key == first_key {
        let first = A::scan(alloc, reader, depth)?;
        pair.first = Some(first);
        return Ok(());
    }
    if key == second_key {
        let second = B::scan(alloc, reader, depth)?;
        pair.second = Some(second);
        return Ok(());
    }
    pass(reader, depth)?;
    pair.has_others = true;
    Ok(())
}
