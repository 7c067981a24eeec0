//! The kinds of the values.

/// Values of logs and of instances, whatever file they are in.
pub struct LogJson;

/// The JSON files of certificates.
pub(crate) struct CertJson;
