//! Why certificates are not accepted.
use cocoon_num::{NoMemory, Text};
use json_forms::FormFault;
use obligation_gen::InlineFault;
use queries::RecheckFault;

/// Why certificates are not read, or not accepted for a design. A number that does not fit is told as the greatest.
#[derive(Drop)]
pub enum CertFault {
    /// The bytes are not the JSON text of any value.
    NotJson,
    /// The value is not of its form: the JSON pointer of the first member that is not; no text for the whole value.
    Shape(Text),
    /// The certificate of this number does not show its obligation.
    Refused(u32),
    /// There are so many certificates, and so many obligations.
    Count(u32, u32),
    /// A tree of the design has so many leaves, more than 4,096.
    Paths(u64),
    /// The query of a certificate has so many clauses, more than 4,000,000.
    Big(u64),
    NoMemory,
}

impl From<FormFault> for CertFault {
    ghost use Rattle.std.specs.Prelude.{◌≡◌};
    ghost use Rattle.cert_text.specs.Faults.{of_form};

    ghost from_gives = { λ form fault. fault ≡ of_form form };

    fn from(form: FormFault) -> CertFault {
        match form {
            FormFault::NotJson => CertFault::NotJson,
            FormFault::Shape(pointer) => CertFault::Shape(pointer),
            FormFault::NoMemory => CertFault::NoMemory,
        }
    }
}

impl From<InlineFault> for CertFault {
    ghost use Rattle.std.specs.Prelude.{◌≡◌};
    ghost use Rattle.cert_text.specs.Faults.{of_tree};

    ghost from_gives = { λ tree fault. fault ≡ of_tree tree };

    fn from(tree: InlineFault) -> CertFault {
        match tree {
            InlineFault::Paths(leaves) => CertFault::Paths(leaves),
            InlineFault::NoMemory => CertFault::NoMemory,
        }
    }
}

impl From<RecheckFault> for CertFault {
    ghost use Rattle.std.specs.Prelude.{◌≡◌};
    ghost use Rattle.cert_text.specs.Faults.{of_query};

    ghost from_gives = { λ query fault. fault ≡ of_query query };

    fn from(query: RecheckFault) -> CertFault {
        match query {
            RecheckFault::Big(clauses) => CertFault::Big(clauses),
            RecheckFault::NoMemory => CertFault::NoMemory,
        }
    }
}
