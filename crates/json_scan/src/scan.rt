//! Values of forms, read from the tokens of a text.
ghost use Rattle.std.specs.Prelude.{◌≡◌, ℕ, ◌^◌, Err, IfOk, List, map, None, Option, option_and_then, option_map};
ghost use Rattle.serde_json.specs.Data.{Data};
ghost use Rattle.serde_json.specs.Find.{as_number, as_u64};
ghost use Rattle.json_forms.specs.Forms.{below, list_form, number_form};
ghost use Rattle.json_scan.specs.Numbers.{num_of};
ghost use Rattle.json_scan.specs.Scanning.{Reads, read_value};
ghost use Rattle.json_scan.specs.declared.fault.ScanFault.TheVariants.{NotJson};

use crate::fault::ScanFault;
use crate::list::list_items;
use crate::number::JsonNumber;
use crate::pass::{no_items, no_members};
use crate::start::{Start, begin};
use json::Reader;
use std::alloc::Global;

/// A type of which each value stands for a JSON value of one form, in files of this kind, and is read from the tokens of the text.
/// A crate that reads such files has a type of its own for their kind, so that it can say of types of other crates how they are
/// read.
pub trait ScanJson<Kind>: Sized {
    ghost Meaning: { Type 0 };

    ghost meaning: { Self → Meaning };

    ghost form: { Data → Option Meaning };

    /// Reads a value, nested no deeper than `depth`: what it stands for, where it is of the form. `NotJson` where the text is
    /// no JSON.
    fn scan(alloc: Global, reader: &mut Reader<'_>, depth: usize) -> Result<Option<Self>, ScanFault>
        ensures ok { IfOk result (λ read.
            Reads form depth reader.old (option_map meaning read) reader.new) }
        ensures err { result ≡ Err NotJson → read_value depth reader.old ≡ None };
}

/// Reads a value: the number, where it is one.
pub fn scan_number(reader: &mut Reader<'_>, depth: usize) -> Result<Option<JsonNumber>, ScanFault>
    ensures ok { IfOk result (λ read.
        Reads as_number depth reader.old (option_map num_of read) reader.new) }
    ensures err { result ≡ Err NotJson → read_value depth reader.old ≡ None }
{
    let start = begin(reader, depth)?;
    match start {
        Start::Number(number) => Ok(Some(number)),
        Start::Array(within) => no_items(reader, within),
        Start::Object(within) => no_members(reader, within),
        Start::Other => Ok(None),
    }
}

impl<Kind> ScanJson<Kind> for u32 {
    ghost Meaning = { ℕ };

    ghost meaning = { λ n. n };

    ghost form = { number_form (2 ^ 32) };

    fn scan(_: Global, reader: &mut Reader<'_>, depth: usize) -> Result<Option<u32>, ScanFault> {
        Ok(u32_of(scan_number(reader, depth)?))
    }
}

impl<Kind> ScanJson<Kind> for u64 {
    ghost Meaning = { ℕ };

    ghost meaning = { λ n. n };

    ghost form = { number_form (2 ^ 64) };

    fn scan(_: Global, reader: &mut Reader<'_>, depth: usize) -> Result<Option<u64>, ScanFault> {
        Ok(u64_of(scan_number(reader, depth)?))
    }
}

fn u32_of(number: Option<JsonNumber>) -> Option<u32>
    ensures { result ≡ option_and_then (below (2 ^ 32))
        (option_and_then as_u64 (option_map num_of number)) }
{
    match number {
        Some(JsonNumber::Unsigned(whole)) if whole < 4_294_967_296 => Some(whole as u32),
        _ => None,
    }
}

fn u64_of(number: Option<JsonNumber>) -> Option<u64>
    ensures { result ≡ option_and_then (below (2 ^ 64))
        (option_and_then as_u64 (option_map num_of number)) }
{
    match number {
        Some(JsonNumber::Unsigned(whole)) => Some(whole),
        _ => None,
    }
}

impl<Kind, T: ScanJson<Kind> + Drop> ScanJson<Kind> for Vec<T> {
    ghost Meaning = { List T.Meaning };

    ghost meaning = { λ list. map T.meaning list.items };

    ghost form = { list_form T.form };

    fn scan(
        alloc: Global,
        reader: &mut Reader<'_>,
        depth: usize,
    ) -> Result<Option<Vec<T>>, ScanFault> {
        let start = begin(reader, depth)?;
        match start {
            Start::Array(within) => list_items::<Kind, T>(alloc, reader, within),
            Start::Object(within) => no_members(reader, within),
            Start::Number(_) => Ok(None),
            Start::Other => Ok(None),
        }
    }
}
