//! What the parsers of texts have in common, of whatever tokens: why a phrase is not read, which token is the first that
//! is too deep, and which fault of a text is the first; and how what was read is put together. The parser of designs and
//! definitions stands in `specs/` as a plain program over tokens; what its readings say of texts is in [`text_laws`].
#![tactic(auto)]

pub mod bytes;
pub mod deep;
pub mod fault;
pub mod joins;
pub mod stop;
pub mod text_laws;
pub mod whole_text;

pub use bytes::bytes_between;
pub use deep::{Depth, first_deep};
pub use fault::ParseFault;
pub use joins::both;
pub use stop::Stop;
pub use whole_text::{fault_of, up_to};
