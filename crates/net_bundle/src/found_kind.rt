//! The kind of the files that are read.

/// The JSON files of a bundle.
pub(crate) struct BundleJson;
