//! Values that JSON values of a form stand for.
ghost use Rattle.std.specs.Prelude.{◌≡◌, ◌∷◌, ◌+◌, ◌<◌, ℕ, ◌^◌, ℤ, IfOk, List, drop, length, map, Option, option_map, string_bytes};
ghost use Rattle.serde_json.specs.Data.{Data, Items};
ghost use Rattle.serde_json.specs.Find.{as_str};
ghost use Rattle.serde_json.specs.View.{items_view, members_view, view};
ghost use Rattle.json_forms.specs.Forms as spec;

use cocoon_num::NoMemory;
use serde_json::{Map, Value};
use std::alloc::Global;

/// A type of which each value stands for a JSON value of one form, in files of this kind. A crate that reads such files has a type
/// of its own for their kind, so that it can say of types of other crates how they are read.
pub trait FromJson<Kind>: Sized {
    ghost Meaning: { Type 0 };

    ghost meaning: { Self → Meaning };

    ghost form: { Data → Option Meaning };

    /// What the JSON value stands for, where it is of the form.
    fn from_json(alloc: Global, value: &Value) -> Result<Option<Self>, NoMemory>
        ensures { IfOk result (λ read. option_map meaning read ≡ form (view value.now)) };
}

impl<Kind> FromJson<Kind> for u16 {
    ghost Meaning = { ℕ };

    ghost meaning = { λ n. n };

    ghost form = { spec.number_form (2 ^ 16) };

    fn from_json(_: Global, value: &Value) -> Result<Option<u16>, NoMemory> {
        match value.as_u64() {
            Some(number) if number < 65_536 => Ok(Some(number as u16)),
            _ => Ok(None),
        }
    }
}

impl<Kind> FromJson<Kind> for u32 {
    ghost Meaning = { ℕ };

    ghost meaning = { λ n. n };

    ghost form = { spec.number_form (2 ^ 32) };

    fn from_json(_: Global, value: &Value) -> Result<Option<u32>, NoMemory> {
        match value.as_u64() {
            Some(number) if number < 4_294_967_296 => Ok(Some(number as u32)),
            _ => Ok(None),
        }
    }
}

impl<Kind> FromJson<Kind> for u64 {
    ghost Meaning = { ℕ };

    ghost meaning = { λ n. n };

    ghost form = { spec.number_form (2 ^ 64) };

    fn from_json(_: Global, value: &Value) -> Result<Option<u64>, NoMemory> {
        Ok(value.as_u64())
    }
}

impl<Kind> FromJson<Kind> for i64 {
    ghost Meaning = { ℤ };

    ghost meaning = { λ n. n };

    ghost form = { spec.integer_form };

    fn from_json(_: Global, value: &Value) -> Result<Option<i64>, NoMemory> {
        match value.as_i64() {
            Some(number) if number < 0 || value.is_u64() => Ok(Some(number)),
            _ => Ok(None),
        }
    }
}

impl<Kind> FromJson<Kind> for String {
    ghost Meaning = { List ℕ };

    ghost meaning = { λ text. string_bytes text };

    ghost form = { as_str };

    fn from_json(alloc: Global, value: &Value) -> Result<Option<String>, NoMemory> {
        match value.as_str() {
            Some(text) => Ok(Some(String::from_str(alloc, text)?)),
            None => Ok(None),
        }
    }
}

impl<Kind, T: FromJson<Kind> + Drop> FromJson<Kind> for Vec<T> {
    ghost Meaning = { List T.Meaning };

    ghost meaning = { λ list. map T.meaning list.items };

    ghost form = { spec.list_form T.form };

    fn from_json(alloc: Global, value: &Value) -> Result<Option<Vec<T>>, NoMemory> {
        match value.as_array() {
            Some(values) => all::<Kind, T>(alloc, values),
            None => Ok(None),
        }
    }
}

/// What these values stand for, where each is of the form.
fn all<Kind, T: FromJson<Kind> + Drop>(
    alloc: Global,
    values: &[Value],
) -> Result<Option<Vec<T>>, NoMemory>
    ensures { IfOk result (λ read. option_map (λ list. map T.meaning list.items) read
        ≡ spec.all_form T.form (items_view values.now)) }
{
    let mut items = Vec::new(alloc);
    for value in values {
        match T::from_json(alloc, value)? {
            Some(item) => items.push(item)?,
            None => return Ok(None),
        }
    }
    Ok(Some(items))
}

/// Whether the value is an array of so many items.
#[tactic(auto, using(crate::proofs::Seen::items_len_view))]
pub fn has_items(value: &Value, count: usize) -> bool
    ensures { result ≡ spec.has_items count (view value.now) }
{
    match value.as_array() {
        Some(items) => items.len() == count,
        None => false,
    }
}

/// What the item at this index stands for, where it is of the form.
pub fn item<Kind, T: FromJson<Kind>>(
    alloc: Global,
    value: &Value,
    index: usize,
) -> Result<Option<T>, NoMemory>
    ensures { IfOk result (λ read. option_map T.meaning read
        ≡ spec.item_form T.form index (view value.now)) }
{
    match value.get(index) {
        Some(item) => T::from_json(alloc, item),
        None => Ok(None),
    }
}

/// Whether the value is an object with these keys, in this order, and no other.
pub fn has_keys(value: &Value, keys: &[&str]) -> bool
    ensures { result ≡ spec.has_keys (map (λ k. k.now) keys.now) (view value.now) }
{
    match value.as_object() {
        Some(object) => are_keys(object, keys),
        None => false,
    }
}

#[tactic(auto, using(crate::proofs::Seen::keys_done, crate::proofs::Seen::keys_end))]
fn are_keys(object: &Map<String, Value>, keys: &[&str]) -> bool
    ensures { result ≡ spec.are_keys (map (λ k. k.now) keys.now)
        (members_view object.now.entries) }
{
    let mut index = 0;
    for (key, _) in object.iter() {
        if index >= keys.len() {
            return false;
        }
        let next = key_at(keys, index);
        if key.as_str() != next {
            return false;
        }
        index += 1;
    }
    index == keys.len()
}

fn key_at<'k>(keys: &[&'k str], index: usize) -> &'k str
    requires { index < length keys.now }
    ensures { drop index keys.now ≡ result ∷ drop (index + 1) keys.now }
{
    keys[index]
}

/// What the member of this key stands for, where it is of the form.
pub fn member<Kind, T: FromJson<Kind>>(
    alloc: Global,
    value: &Value,
    key: &str,
) -> Result<Option<T>, NoMemory>
    ensures { IfOk result (λ read. option_map T.meaning read
        ≡ spec.member_form T.form key.now (view value.now)) }
{
    match value.get(key) {
        Some(member) => T::from_json(alloc, member),
        None => Ok(None),
    }
}
