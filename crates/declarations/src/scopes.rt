//! Variables by name, the last that was bound first.
ghost use Rattle.std.specs.Prelude.{◌≡◌, ◌≤◌, ◌<◌, ◌-◌, [], ◌∷◌, drop, length, OnOk};
ghost use Rattle.cocoon_syntax.specs.TreeOf.{name_of};
ghost use Rattle.declarations.specs.Widths.{variable, width_in};

use cocoon_num::NoMemory;
use cocoon_syntax::Name;
use std::alloc::Global;
use std::collections::BTreeMap;
use std::marker::Model;

/// A variable, and the width of the one that it hides, if it hides any.
#[derive(Drop)]
struct Bound {
    at: u32,
    name: Vec<u8>,
    width: u32,
    hides: Option<u32>,
}

/// The variables in scope, and under each name the width of the one that it stands for.
#[derive(Drop)]
pub struct Scopes {
    bound: Vec<Bound>,
    widths: BTreeMap<Vec<u8>, Option<u32>>,
}

impl Model for Scopes {
    ghost use Rattle.std.specs.Prelude.{List};
    ghost use Rattle.cocoon_num.specs.Tree.{Param};
    ghost use Rattle.declarations.specs.Kept.{IsKept, in_scope};

    ghost Value = { List Param };

    ghost view = { λ s. in_scope s.bound.items };

    ghost invariant = { λ s. IsKept s.bound.items s.widths };
}

impl Scopes {
    /// No variable is in scope.
    pub fn new(alloc: Global) -> Scopes
        ensures { result ≡ [] }
    {
        Scopes {
            bound: Vec::new(alloc),
            widths: BTreeMap::new(alloc),
        }
    }

    /// How many variables are in scope.
    pub fn depth(&self) -> usize
        ensures { result ≡ length self.now }
    {
        self.bound.len()
    }

    /// The width in bits of the variable that a name stands for.
    pub fn width(&self, name: &[u8]) -> Option<u32>
        ensures { result ≡ width_in self.now name.now }
    {
        match self.widths.get(name) {
            Some(width) => *width,
            None => None,
        }
    }

    /// One more variable, of a width in bits.
    pub fn bind(&mut self, alloc: Global, name: &Name, width: u32) -> Result<(), NoMemory>
        ensures { OnOk result (self.new ≡ variable (name_of name.now) width ∷ self.old) }
    {
        let hides = self.width(name.text.bytes());
        let key = name.text.bytes().to_vec(alloc)?;
        let text = name.text.bytes().to_vec(alloc)?;
        self.bound.reserve(1)?;
        self.widths.insert(key, Some(width))?;
        self.bound.push(Bound {
            at: name.at,
            name: text,
            width,
            hides,
        })?;
        Ok(())
    }

    /// The last variable is no longer in scope.
    fn unbind(&mut self) -> Result<(), NoMemory>
        ensures { OnOk result (self.new ≡ drop 1 self.old) }
    {
        if let Some(last) = self.bound.pop() {
            self.widths.insert(last.name, last.hides)?;
        }
        Ok(())
    }

    /// So many variables stay in scope, those that were bound first.
    pub fn close(&mut self, depth: usize) -> Result<(), NoMemory>
        requires { depth ≤ length self.old }
        ensures { OnOk result (self.new ≡ drop (length self.old - depth) self.old) }
    {
        while depth < self.depth() {
            self.unbind()?;
        }
        Ok(())
    }
}
