//! The kind of the files that are written.

/// The JSON files of a bundle.
pub(crate) struct BundleJson;
