//! Definitions of functions at run time.
ghost use Rattle.std.specs.Prelude.{◌≡◌, IfOk};
ghost use Rattle.cocoon_num.specs.Tree.{Entry as Given};
ghost use Rattle.cocoon_syntax.specs.TreeOf.{entries_of, entry_of};

use crate::name::Name;
use cocoon_num::copies::{Copied, copy_list};
use cocoon_num::{Bits, NoMemory};
use std::alloc::Global;

/// What an argument is to match.
#[derive(Clone, Copy, Drop)]
pub enum Pattern {
    Literal(Bits),
    /// A number, and the mask of the bits that count.
    Masked(Bits, Bits),
    Any,
}

/// The value of a function.
#[derive(Clone, Copy, Drop)]
pub enum Const {
    Number(Bits),
    Truth(bool),
}

#[derive(Drop)]
pub enum Entry {
    /// The function, and its value where no row matches.
    Default(Name, Const),
    /// The function, a pattern for each argument, and the value where they match.
    Define(Name, Vec<Pattern>, Const),
}

/// Definitions, in order.
#[derive(Drop)]
pub struct DefsText {
    pub entries: Vec<Entry>,
}

impl Copied for Entry {
    ghost Meaning = { Given };

    ghost meaning = { entry_of };

    fn copy(&self, alloc: Global) -> Result<Entry, NoMemory>
        ensures { IfOk result (λ copy. entry_of copy ≡ entry_of self.now) }
    {
        match self {
            Entry::Default(function, value) => { Ok(Entry::Default(function.copy(alloc)?, *value)) }
            Entry::Define(function, patterns, value) => Ok(Entry::Define(
                function.copy(alloc)?,
                patterns.to_vec(alloc)?,
                *value,
            )),
        }
    }
}

impl DefsText {
    /// The same tree, in memory of its own.
    pub fn copy(&self, alloc: Global) -> Result<DefsText, NoMemory>
        ensures { IfOk result (λ copy. entries_of copy ≡ entries_of self.now) }
    {
        Ok(DefsText {
            entries: copy_list(alloc, &self.entries)?,
        })
    }
}
