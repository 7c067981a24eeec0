//! Why bytes are no file of a form.

use cocoon_num::{NoMemory, Text};

/// Why bytes are no file of a form.
#[derive(Drop)]
pub enum FormFault {
    /// The bytes are not the JSON text of any value.
    NotJson,
    /// The value is not of its form: the JSON pointer of the first member, in ascending order of keys, that is not of
    /// its form; no text where the value is no object, lacks a key or has an unknown one.
    Shape(Text),
    NoMemory,
}

impl From<NoMemory> for FormFault {
    ghost use Rattle.std.specs.Prelude.{◌≡◌};
    ghost use Rattle.json_forms.specs.declared.fault.FormFault.TheVariants.{NoMemory};

    ghost from_gives = { λ _ r. r ≡ NoMemory };

    fn from(_: NoMemory) -> FormFault {
        FormFault::NoMemory
    }
}
