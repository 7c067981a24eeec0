//! Where a run stands, and how statements end.
ghost use Rattle.std.specs.Prelude.{◌≡◌, OnOk, option_map};
ghost use Rattle.role_meaning.specs.Progresses.{BindsTo, Chooses, Takes};
ghost use Rattle.role_values.specs.Meant.{meant};

use crate::place::Loc;
use cocoon_num::{NoMemory, Text};
use cocoon_syntax::Name;
use role_values::bindings::{fits, number_value};
use role_values::{Binding, State, Value};
use std::alloc::Global;

/// How statements end that end at all.
#[derive(Drop)]
pub(crate) enum End {
    /// What follows is done.
    Falls,
    Sends(Loc),
}

/// The variables and fields, and the choices that are left.
#[derive(Drop)]
pub(crate) struct Progress<'c> {
    pub(crate) state: State,
    pub(crate) choices: &'c [u64],
}

impl Progress<'_> {
    /// Takes the first choice that is left.
    pub(crate) fn take(&mut self) -> Option<u64>
        ensures takes { Takes self.old.choices.now result self.new.choices.now }
        ensures same { self.new.state ≡ self.old.state }
    {
        let (first, rest) = self.choices.split_first()?;
        self.choices = rest;
        Some(*first)
    }

    /// Takes a choice of this width in bits.
    pub(crate) fn choose(&mut self, width: u32) -> Option<Value>
        ensures chooses { Chooses width self.old.choices.now (option_map meant result)
            self.new.choices.now }
        ensures same { self.new.state ≡ self.old.state }
    {
        if width < 1 || width > 64 {
            return None;
        }
        let choice = u128::from(self.take()?);
        if !fits(width, choice) {
            return None;
        }
        Some(number_value(width, choice))
    }

    /// Binds a variable.
    pub(crate) fn bind(&mut self, alloc: Global, name: &Name, value: Value) -> Result<(), NoMemory>
        ensures { OnOk result (BindsTo self.old name.now.text (meant value) self.new) }
    {
        let name = Text::from(alloc, name.text.bytes())?;
        self.state.variables.push(Binding { name, value })?;
        Ok(())
    }
}
