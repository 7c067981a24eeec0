//! The files of a bundle: a network is written as the P4 programs and rows of its switches, and one file that names and
//! joins them, and these files of JSON are read. docs/FORMATS.md says what each file holds. All files are made, and tested
//! against their limits, before the first is written, and no other is made after the first that is too long. The files of one
//! switch are held at a time, and made again when they are written; but where all switches have the same rows, the text of
//! these is made and hashed once, before all else, and held. The file of the network is written last: so it names a bundle
//! only once that is whole. Bytes that are no file of their form are refused with the first member that is not of its form.
#![tactic(auto)]

pub mod fault;
pub mod file;
pub mod form_laws;
mod found_kind;
mod kind;
mod known;
pub mod laws;
pub mod make;
pub mod net_form;
mod net_items;
pub mod net_json;
mod net_rules;
mod row_texts;
pub mod rows_form;
pub mod rows_json;
pub mod writable;
pub mod write;

pub use fault::BundleFault;
pub use file::BundleFile;
pub use json_forms::FormFault;
pub use net_form::read_net;
pub use rows_form::read_rows;
pub use writable::WritableNet;
pub use write::write_bundle;
