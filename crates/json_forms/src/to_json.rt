//! JSON values of lists, of texts and of objects.
ghost use Rattle.std.specs.Prelude.{◌≡◌, ℕ, ℤ, IfOk, map};
ghost use Rattle.serde_json.specs.Data.{Data, Members, put, string};
ghost use Rattle.serde_json.specs.View.{members_view, view};
ghost use Rattle.json_forms.specs.Values.{array_data, integer_data, number_data};

use cocoon_num::NoMemory;
use serde_json::{Map, Value};
use std::alloc::Global;

/// A type of which each value is written as a JSON value, in files of this kind. A crate that writes such files has a type of its
/// own for their kind, so that it can say of types of other crates how they are written.
pub trait ToJson<Kind> {
    ghost Meaning: { Type 0 };

    ghost meaning: { Self → Meaning };

    ghost json: { Meaning → Data };

    fn to_json(&self, alloc: Global) -> Result<Value, NoMemory>
        ensures { IfOk result (λ v. view v ≡ json (meaning self.now)) };
}

impl<Kind> ToJson<Kind> for u16 {
    ghost Meaning = { ℕ };

    ghost meaning = { λ n. n };

    ghost json = { number_data };

    fn to_json(&self, _: Global) -> Result<Value, NoMemory> {
        Ok(Value::from(*self))
    }
}

impl<Kind> ToJson<Kind> for u32 {
    ghost Meaning = { ℕ };

    ghost meaning = { λ n. n };

    ghost json = { number_data };

    fn to_json(&self, _: Global) -> Result<Value, NoMemory> {
        Ok(Value::from(*self))
    }
}

impl<Kind> ToJson<Kind> for u64 {
    ghost Meaning = { ℕ };

    ghost meaning = { λ n. n };

    ghost json = { number_data };

    fn to_json(&self, _: Global) -> Result<Value, NoMemory> {
        Ok(Value::from(*self))
    }
}

impl<Kind> ToJson<Kind> for i32 {
    ghost Meaning = { ℤ };

    ghost meaning = { λ n. n };

    ghost json = { integer_data };

    fn to_json(&self, _: Global) -> Result<Value, NoMemory> {
        Ok(Value::from(*self))
    }
}

/// The array of the values of these items.
pub fn array<Kind, T: ToJson<Kind>>(alloc: Global, items: &[T]) -> Result<Value, NoMemory>
    ensures { IfOk result (λ v. view v ≡ array_data T.json (map T.meaning items.now)) }
{
    let mut values = Vec::new(alloc);
    for item in items {
        values.push(item.to_json(alloc)?)?;
    }
    Ok(Value::Array(values))
}

/// The string of this text.
pub fn text(alloc: Global, text: &str) -> Result<Value, NoMemory>
    ensures { IfOk result (λ v. view v ≡ string text.now) }
{
    Ok(Value::String(String::from_str(alloc, text)?))
}

/// The object with one more member, where both were made.
pub fn with(
    alloc: Global,
    object: Result<Map<String, Value>, NoMemory>,
    key: &str,
    value: Result<Value, NoMemory>,
) -> Result<Map<String, Value>, NoMemory>
    ensures { (members : Members) (d : Data) → IfOk object (λ o. members_view o.entries ≡ members)
        → IfOk value (λ v. view v ≡ d)
        → IfOk result (λ o. members_view o.entries ≡ put key.now d members) }
{
    let mut object = object?;
    serde_json::put(&mut object, alloc, key, value?)?;
    Ok(object)
}
