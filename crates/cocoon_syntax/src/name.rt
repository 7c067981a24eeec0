//! Names with their token indices.
ghost use Rattle.std.specs.Prelude.{◌≡◌, IfOk};
ghost use Rattle.cocoon_num.specs.Tree.{Name as Called};
ghost use Rattle.cocoon_syntax.specs.TreeOf.{name_of};

use cocoon_num::copies::Copied;
use cocoon_num::{NoMemory, Text, both};
use std::alloc::Global;

/// A name, and its token index.
#[derive(Drop)]
pub struct Name {
    pub at: u32,
    pub text: Text,
}

impl Copied for Name {
    ghost Meaning = { Called };

    ghost meaning = { name_of };

    fn copy(&self, alloc: Global) -> Result<Name, NoMemory>
        ensures { IfOk result (λ name. name_of name ≡ name_of self.now) }
    {
        let text = Text::from(alloc, self.text.bytes())?;
        Ok(Name { at: self.at, text })
    }
}

/// Copies of two names, as of a header and its field.
pub(crate) fn copy_two(alloc: Global, first: &Name, second: &Name) -> Result<(Name, Name), NoMemory>
    ensures { IfOk result (λ copies.
        (name_of copies.0 ≡ name_of first.now) × (name_of copies.1 ≡ name_of second.now)) }
{
    both(first.copy(alloc), second.copy(alloc))
}
