//! One level of a design: its roles, and when they are entered.
ghost use Rattle.std.specs.Prelude.{◌≡◌, IfOk, IfSome, is_some, map, option_map, Some};
ghost use Rattle.cocoon_resolve.specs.Readers.{HasRole};
ghost use Rattle.cocoon_syntax.specs.TreeOf.{expr_of, param_of, role_of};
ghost use Rattle.cocoon_types.specs.Design.{widths_of};
ghost use Rattle.role_meaning.specs.Levels as spec;
ghost use Rattle.role_meaning.specs.Levels.{AllWords, arrived, CanRun, design_at, truth_in, world_at};
ghost use Rattle.role_meaning.specs.Located.{at_role, loc_of};
ghost use Rattle.role_values.specs.Bound.{env_of};
ghost use Rattle.role_values.specs.DeclaredWidths.{AllDeclared};
ghost use Rattle.role_values.specs.Meant.{meant};
ghost use Rattle.role_values.specs.Scenes.{HasPacket, SeesFunctions, value_in};

use crate::place::Loc;
use cocoon_num::{List, NoMemory};
use cocoon_syntax::{Expr, Role};
use declarations::RoleId;
use role_values::bindings::bind;
use role_values::{Binding, Scene, State, Value, evaluate};
use std::alloc::Global;

/// A level of a design, by its number, and what expressions see there.
#[derive(Clone, Copy, Drop)]
pub(crate) struct Level<'d> {
    pub(crate) scene: Scene<'d>,
    pub(crate) number: u32,
}

fn truth_of(value: Option<Value>) -> Option<bool>
    ensures { result ≡ truth_in (option_map meant value) }
{
    match value? {
        Value::Number(_) => None,
        Value::Truth(truth) => Some(truth),
    }
}

/// The truth value of an expression, if it has one.
pub(crate) fn truth(
    alloc: Global,
    scene: &Scene<'_>,
    state: &State,
    expr: &Expr,
) -> Result<Option<bool>, NoMemory>
    requires functions { SeesFunctions scene.now }
    requires packet { HasPacket scene.now state.now }
    ensures { IfOk result (λ truth. truth
        ≡ truth_in (value_in scene.now state.now (expr_of expr.now))) }
{
    Ok(truth_of(evaluate(alloc, scene, state, expr)?))
}

/// Whether an expression has a value, and is true.
pub(crate) fn is_true(
    alloc: Global,
    scene: &Scene<'_>,
    state: &State,
    expr: &Expr,
) -> Result<bool, NoMemory>
    requires functions { SeesFunctions scene.now }
    requires packet { HasPacket scene.now state.now }
    ensures { IfOk result (λ does. does
        ≡ spec.is_true (value_in scene.now state.now (expr_of expr.now))) }
{
    match truth(alloc, scene, state, expr)? {
        Some(truth) => Ok(truth),
        None => Ok(false),
    }
}

/// The numbers as such of 64 bits.
fn narrowed(alloc: Global, numbers: &[u128]) -> Result<List<u64>, NoMemory>
    requires { AllWords numbers.now }
    ensures { IfOk result (λ narrowed. narrowed ≡ numbers.now) }
{
    let mut narrowed = Vec::new(alloc);
    for number in numbers {
        narrowed.push(*number as u64)?;
    }
    Ok(List::from(narrowed))
}

/// The location of a role with these values.
fn located(alloc: Global, role: RoleId, values: &[u128]) -> Result<Option<Loc>, NoMemory>
    requires { AllWords values.now }
    ensures { IfOk result (λ at. at ≡ Some (at_role role values.now)) }
{
    let values = narrowed(alloc, values)?;
    Ok(Some(Loc { role, values }))
}

impl Level<'_> {
    /// The variables with which a role is entered, where its parameters take these values and its
    /// guard is true. A guard sees no packet.
    pub(crate) fn enter(
        &self,
        alloc: Global,
        role: &Role,
        values: &[u128],
    ) -> Result<Option<Vec<Binding>>, NoMemory>
        requires functions { SeesFunctions self.now.scene }
        requires params { AllDeclared (widths_of (map param_of role.now.params.items)) }
        ensures { IfOk result (λ bindings. option_map (λ bs. env_of bs.items) bindings
            ≡ spec.entered (world_at self.now) (role_of role.now) values.now) }
    {
        match bind(alloc, &role.params, values)? {
            Some(variables) => self.enter_with(alloc, &role.guard, variables),
            None => Ok(None),
        }
    }

    /// The variables, where a guard over them is true.
    fn enter_with(
        &self,
        alloc: Global,
        guard: &Expr,
        variables: Vec<Binding>,
    ) -> Result<Option<Vec<Binding>>, NoMemory>
        requires { SeesFunctions self.now.scene }
        ensures { IfOk result (λ bindings. option_map (λ bs. env_of bs.items) bindings
            ≡ spec.entered_with (world_at self.now) (expr_of guard.now) (env_of variables.items)) }
    {
        let fields = Vec::new(alloc);
        let state = State { variables, fields };
        let bare = Scene {
            headers: &[],
            ..self.scene
        };
        if is_true(alloc, &bare, &state, guard)? {
            Ok(Some(state.variables))
        } else {
            Ok(None)
        }
    }

    /// Whether a role is entered with these values.
    fn admits(&self, alloc: Global, role: &Role, values: &[u128]) -> Result<bool, NoMemory>
        requires functions { SeesFunctions self.now.scene }
        requires params { AllDeclared (widths_of (map param_of role.now.params.items)) }
        ensures { IfOk result (λ does. does
            ≡ is_some (spec.entered (world_at self.now) (role_of role.now) values.now)) }
    {
        Ok(self.enter(alloc, role, values)?.is_some())
    }

    /// The location of a role of this name with these values, where there is the role at this level
    /// and it is entered.
    pub(crate) fn arrive(
        &self,
        alloc: Global,
        name: &[u8],
        values: &[u128],
    ) -> Result<Option<Loc>, NoMemory>
        requires { CanRun self.now }
        ensures arrives { IfOk result (λ at. option_map (loc_of (design_at self.now)) at
            ≡ arrived (world_at self.now) name.now values.now) }
        ensures role { IfOk result (λ at. IfSome at (λ l.
            HasRole (design_at self.now) l.role self.now.number)) }
    {
        let checked = self.scene.checked;
        let names = checked.names();
        let Some(number) = checked.role_of(name) else {
            return Ok(None);
        };
        let Some(role) = names.role(checked.design(), number, self.number) else {
            return Ok(None);
        };
        if self.admits(alloc, role, values)? {
            located(alloc, number, values)
        } else {
            Ok(None)
        }
    }
}
