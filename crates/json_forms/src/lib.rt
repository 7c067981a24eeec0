//! JSON values of forms, in both directions: numbers, integers, texts, arrays and objects. Bytes that are no value of a form are
//! refused with a fault; for a file, that is the first member that is not of its form.
#![tactic(auto)]

pub mod fault;
pub mod from_json;
pub mod reading;
pub mod to_json;

pub use fault::FormFault;
pub use from_json::{FromJson, has_items, has_keys, item, member};
pub use reading::value_of;
pub use to_json::{ToJson, array, text, with};
