//! What the forms of certificates, logs and instances say: laws, each the contract of a function that does nothing.
ghost use Rattle.std.specs.Prelude.{◌≡◌, ◌↔◌, ℕ, IsTrue, List, Ok, Some};
ghost use Rattle.serde_json.specs.Data.{Data};
ghost use Rattle.json_forms.specs.Reading.{Answered};
ghost use Rattle.json_forms.specs.Values.{IsJson};
ghost use Rattle.cnf_core.specs.Certificates.{Cert, Instance, Step};
ghost use Rattle.cert_text.specs.CertsForm.{certs_fit, certs_form};
ghost use Rattle.cert_text.specs.CertsJson.{certs_data};
ghost use Rattle.cert_text.specs.LogsForm.{instances_fit, instances_form, log_fits, log_form};
ghost use Rattle.cert_text.specs.LogsJson.{instances_data, log_data};

/// No member is found exactly where the value is that of certificates that fit, and it is these.
pub fn certs_form_is_exact()
    ensures { (d : Data) (certs : List Cert) → (certs_form d ≡ Ok certs)
        ↔ ((d ≡ certs_data certs) × IsTrue (certs_fit certs)) }
{}

/// What was written of certificates is read back as these, if anything is.
pub fn written_reads_back()
    ensures { (bytes : List ℕ) (certs read : List Cert) → IsJson bytes (certs_data certs)
        → Answered certs_form bytes (Ok read) → read ≡ certs }
{}

/// A value is of the form exactly where it is the one that is written of what it stands for, and each number of this is in its
/// range.
pub fn forms_are_exact()
    ensures log { (d : Data) (log : List Step) → (log_form d ≡ Some log)
        ↔ ((d ≡ log_data log) × IsTrue (log_fits log)) }
    ensures instances { (d : Data) (instances : List Instance) → (instances_form d ≡ Some instances)
        ↔ ((d ≡ instances_data instances) × IsTrue (instances_fit instances)) }
{}

/// Logs with one value are equal, and so are instances.
pub fn values_are_of_one()
    ensures log { (log other : List Step) → log_data log ≡ log_data other → log ≡ other }
    ensures instances { (instances others : List Instance)
        → instances_data instances ≡ instances_data others → instances ≡ others }
{}
