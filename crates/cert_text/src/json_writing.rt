//! The text of a file of certificates.
ghost use Rattle.std.specs.Prelude.{◌≡◌, IfOk};
ghost use Rattle.serde_json.specs.View.{view};
ghost use Rattle.serde_json.specs.Written.{compact_text};
ghost use Rattle.json_forms.specs.Values.{IsJson};
ghost use Rattle.cnf_core.specs.Certificates as tree;
ghost use Rattle.cnf_core.specs.CertsOf.{cert_of, certs_of};
ghost use Rattle.cert_text.specs.CertsJson as spec;

use crate::kind::{CertJson, LogJson};
use cnf_core::{Cert, Certs, Instance};
use cocoon_num::NoMemory;
use json_forms::{ToJson, array, with};
use serde_json::{Map, Value};
use std::alloc::Global;

impl ToJson<CertJson> for Cert {
    ghost Meaning = { tree.Cert };

    ghost meaning = { cert_of };

    ghost json = { spec.cert_data };

    /// `{"instances":[INSTANCE],"log":LOG}`
    fn to_json(&self, alloc: Global) -> Result<Value, NoMemory> {
        let instances = array::<LogJson, Instance>(alloc, self.instances.items());
        let log = self.log.to_json(alloc);
        let object = with(alloc, Ok(Map::new(alloc)), "instances", instances);
        let object = with(alloc, object, "log", log);
        Ok(Value::Object(object?))
    }
}

/// `{"certs":[CERT],"cocoon":1}`
fn certs_value(alloc: Global, certs: &Certs) -> Result<Value, NoMemory>
    ensures { IfOk result (λ v. view v ≡ spec.certs_data (certs_of certs.now)) }
{
    let values = array::<CertJson, Cert>(alloc, certs.certs.items());
    let object = with(alloc, Ok(Map::new(alloc)), "certs", values);
    let object = with(alloc, object, "cocoon", Ok(Value::from(1u16)));
    Ok(Value::Object(object?))
}

/// The text of the file of these certificates.
///
/// A literal of the number -2147483648 is written, and refused by `from_json`.
pub fn to_json(alloc: Global, certs: &Certs) -> Result<Vec<u8>, NoMemory>
    ensures text { IfOk result (λ v.
        v.items ≡ compact_text (spec.certs_data (certs_of certs.now))) }
    ensures reads { IfOk result (λ v. IsJson v.items (spec.certs_data (certs_of certs.now))) }
{
    let value = certs_value(alloc, certs)?;
    Ok(value.to_vec(alloc)?)
}
