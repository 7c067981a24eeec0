//! Lists of values of one form.
ghost use Rattle.std.specs.Prelude.{◌≡◌, ◌∷◌, ◌++◌, [], Err, false, if◌then◌else◌, IfOk, map, MatchOption, None, OnErr, OnOk, option_map, Some};
ghost use Rattle.json_forms.specs.Forms.{all_form};
ghost use Rattle.json_scan.specs.Scanning.{ReadsItems, read_items};
ghost use Rattle.json_scan.specs.declared.fault.ScanFault.TheVariants.{NoMemory, NotJson};

use crate::fault::ScanFault;
use crate::scan::ScanJson;
use json::Reader;
use std::alloc::Global;

/// What was read of a list so far.
#[derive(Drop)]
struct Found<T> {
    items: Vec<T>,
    /// Whether each item was of the form.
    are_of_the_form: bool,
}

impl<T: Drop> Found<T> {
    /// One item more, where it is of the form.
    fn add(&mut self, item: Option<T>) -> Result<(), ScanFault>
        ensures ok { OnOk result (MatchOption item (self.new.are_of_the_form ≡ false)
            (λ item. (self.new.items.items ≡ self.old.items.items ++ item ∷ [])
            × (self.new.are_of_the_form ≡ self.old.are_of_the_form))) }
        ensures err { OnErr result (result ≡ Err NoMemory) }
    {
        match item {
            Some(item) => {
                self.items.push(item)?;
                Ok(())
            }
            None => {
                self.are_of_the_form = false;
                Ok(())
            }
        }
    }

    /// The list, where each item was of the form.
    fn list(self) -> Option<Vec<T>>
        ensures { result ≡ if self.are_of_the_form then Some self.items else None }
    {
        if self.are_of_the_form {
            Some(self.items)
        } else {
            None
        }
    }
}

/// Reads the items up to the bracket that closes their array: what they stand for, where each is of the form.
pub(crate) fn list_items<Kind, T: ScanJson<Kind> + Drop>(
    alloc: Global,
    reader: &mut Reader<'_>,
    depth: usize,
) -> Result<Option<Vec<T>>, ScanFault>
    ensures ok { IfOk result (λ read. ReadsItems (all_form T.form) depth reader.old
        (option_map (λ list. map T.meaning list.items) read) reader.new) }
    ensures err { result ≡ Err NotJson → read_items depth reader.old ≡ None }
{
    let items = Vec::new(alloc);
    let mut found = Found {
        items,
        are_of_the_form: true,
    };
    'items: while !reader.take_end_array() {
        let item = T::scan(alloc, reader, depth)?;
        found.add(item)?;
    }
    Ok(found.list())
}
