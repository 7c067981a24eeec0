//! What lowering makes beside code: meta fields and tables, in order.
ghost use Rattle.std.specs.Prelude.{◌≡◌, ◌+◌, IfOk, map};
ghost use Rattle.cocoon_num.specs.Tree.{Design};
ghost use Rattle.cocoon_syntax.specs.TreeOf.{param_of};
ghost use Rattle.lower_code.specs.Growth.{counted, field_name_of, with_field, with_keys, with_parameters, with_variable};

use cocoon_num::NoMemory;
use cocoon_syntax::Param;
use declarations::FunId;
use p4_ir::Table;

/// The name of a meta field, by what it is for.
#[derive(Clone, Copy, Drop)]
pub enum FieldName {
    /// The number of the fork at which ingress ended.
    Site,
    /// A key of a table: the table's number, and the key's, from 0.
    Key(u32, u32),
    /// The result of the table of this number.
    Result(u32),
    /// A variable, by its number.
    Variable(u32),
}

/// A meta field.
#[derive(Clone, Copy, Drop)]
pub struct MetaField {
    pub name: FieldName,
    /// Among all meta fields, from 0.
    pub number: u32,
    /// In bits.
    pub width: u32,
}

/// A part of the program beside its code.
#[derive(Drop)]
pub enum Made {
    Field(MetaField),
    /// A table that holds the function of this number.
    Table(Table, FunId),
    /// A table that holds the numbers of the function's groups.
    Group(Table, FunId),
}

/// The numbers that come next.
#[derive(Clone, Copy, Drop)]
pub struct Counts {
    /// Of a table.
    pub app: u32,
    /// Of a variable.
    pub variable: u32,
    /// Of a meta field.
    pub field: u32,
    /// Of a fork, from 1.
    pub site: u32,
}

/// What was made so far, in order, and the numbers that come next.
#[derive(Drop)]
pub struct Lowering {
    pub counts: Counts,
    pub made: Vec<Made>,
}

/// The number after this one.
pub(crate) fn after(number: u32) -> Result<u32, NoMemory>
    ensures { IfOk result (λ next. next ≡ number + 1) }
{
    number.checked_add(1).ok_or(NoMemory)
}

impl Lowering {
    /// Makes a meta field, and answers its number.
    pub(crate) fn make_field(&mut self, name: FieldName, width: u32) -> Result<u32, NoMemory>
        ensures made { (d : Design) → IfOk result (λ n. counted d self.new
            ≡ with_field (counted d self.old) (field_name_of name) width) }
        ensures number { IfOk result (λ n. n ≡ self.old.counts.field) }
    {
        let number = self.counts.field;
        let next = after(number)?;
        self.made.push(Made::Field(MetaField {
            name,
            number,
            width,
        }))?;
        self.counts.field = next;
        Ok(number)
    }

    /// Makes the meta field of the next variable, and answers its number.
    pub(crate) fn make_variable(&mut self, width: u32) -> Result<u32, NoMemory>
        ensures made { (d : Design) → IfOk result (λ n. counted d self.new
            ≡ with_variable (counted d self.old) width) }
        ensures number { IfOk result (λ n. n ≡ self.old.counts.field) }
    {
        let variable = self.counts.variable;
        let next = after(variable)?;
        let number = self.make_field(FieldName::Variable(variable), width)?;
        self.counts.variable = next;
        Ok(number)
    }

    /// Makes the meta fields of a table's keys.
    pub(crate) fn make_keys(&mut self, app: u32, params: &[Param]) -> Result<(), NoMemory>
        ensures { (d : Design) → IfOk result (λ u. counted d self.new
            ≡ with_keys (counted d self.old) app 0 (map param_of params.now)) }
    {
        let mut key = 0;
        for param in params {
            self.make_field(FieldName::Key(app, key), param.width)?;
            key = after(key)?;
        }
        Ok(())
    }

    /// Makes the meta fields of parameters as variables.
    pub(crate) fn make_parameters(&mut self, params: &[Param]) -> Result<(), NoMemory>
        ensures { (d : Design) → IfOk result (λ u. counted d self.new
            ≡ with_parameters (counted d self.old) (map param_of params.now)) }
    {
        for param in params {
            self.make_variable(param.width)?;
        }
        Ok(())
    }
}
