//! Values that are passed over.
ghost use Rattle.std.specs.Prelude.{◌≡◌, Err, IfOk, None, OnOk};
ghost use Rattle.json_scan.specs.Scanning.{Passes, PassesItems, PassesMembers, read_items, read_members, read_value};
ghost use Rattle.json_scan.specs.declared.fault.ScanFault.TheVariants.{NotJson};

use crate::fault::ScanFault;
use crate::start::{Start, begin};
use json::Reader;

/// Passes a value.
#[cycle(pass)]
pub(crate) fn pass(reader: &mut Reader<'_>, depth: usize) -> Result<(), ScanFault>
    ensures ok { OnOk result (Passes depth reader.old reader.new) }
    ensures err { result ≡ Err NotJson → read_value depth reader.old ≡ None }
{
    match begin(reader, depth)? {
        Start::Array(within) => pass_items(reader, within),
        Start::Object(within) => pass_members(reader, within),
        Start::Number(_) | Start::Other => Ok(()),
    }
}

/// Passes the items up to the bracket that closes their array.
#[cycle(pass)]
pub(crate) fn pass_items(reader: &mut Reader<'_>, depth: usize) -> Result<(), ScanFault>
    ensures ok { OnOk result (PassesItems depth reader.old reader.new) }
    ensures err { result ≡ Err NotJson → read_items depth reader.old ≡ None }
{
    'items: while !reader.take_end_array() {
        pass(reader, depth)?;
    }
    Ok(())
}

/// Passes the members up to the brace that closes their object.
#[cycle(pass)]
pub(crate) fn pass_members(reader: &mut Reader<'_>, depth: usize) -> Result<(), ScanFault>
    ensures ok { OnOk result (PassesMembers depth reader.old reader.new) }
    ensures err { result ≡ Err NotJson → read_members depth reader.old ≡ None }
{
    'members: while let Some(_) = reader.next_key()? {
        pass(reader, depth)?;
    }
    Ok(())
}

/// Passes the items up to the bracket that closes their array, which are of no form.
pub(crate) fn no_items<T>(reader: &mut Reader<'_>, depth: usize) -> Result<Option<T>, ScanFault>
    ensures ok { IfOk result (λ read. (read ≡ None) × PassesItems depth reader.old reader.new) }
    ensures err { result ≡ Err NotJson → read_items depth reader.old ≡ None }
{
    pass_items(reader, depth)?;
    Ok(None)
}

/// Passes the members up to the brace that closes their object, which are of no form.
pub(crate) fn no_members<T>(reader: &mut Reader<'_>, depth: usize) -> Result<Option<T>, ScanFault>
    ensures ok { IfOk result (λ read.
        (read ≡ None) × PassesMembers depth reader.old reader.new) }
    ensures err { result ≡ Err NotJson → read_members depth reader.old ≡ None }
{
    pass_members(reader, depth)?;
    Ok(None)
}
