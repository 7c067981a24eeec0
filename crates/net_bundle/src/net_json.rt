//! The text of the file of a network.
ghost use Rattle.std.specs.Prelude.{◌≡◌, IfOk};
ghost use Rattle.serde_json.specs.View.{view};
ghost use Rattle.serde_json.specs.Written.{compact_text};
ghost use Rattle.net_bundle.specs.NetJson as spec;
ghost use Rattle.p4_ir.specs.NetOf.{host_port_of, link_of};
ghost use Rattle.p4_ir.specs.NetTree as tree;
ghost use Rattle.net_bundle.specs.NetFileOf.{kept_of, net_file_of};
ghost use Rattle.json_forms.specs.Values.{IsJson};

use crate::kind::BundleJson;
use cocoon_num::NoMemory;
use json_forms::{ToJson, array, text, with};
use p4_ir::{HostPort, Link, LinkEnd};
use serde_json::{Map, Value};
use std::alloc::Global;

/// A file of the bundle, by what follows the bundle's name, and the digest of its bytes.
#[derive(Drop)]
pub struct KeptDigest {
    pub name: String,
    pub digest: String,
}

impl ToJson<BundleJson> for KeptDigest {
    ghost Meaning = { spec.KeptDigest };

    ghost meaning = { kept_of };

    ghost json = { spec.digest_data };

    /// `[NAME,DIGEST]`
    fn to_json(&self, alloc: Global) -> Result<Value, NoMemory> {
        let name = text(alloc, &self.name)?;
        let digest = text(alloc, &self.digest)?;
        Ok(Value::Array(vec![in alloc; name, digest]?))
    }
}

impl ToJson<BundleJson> for HostPort {
    ghost Meaning = { tree.HostPort };

    ghost meaning = { host_port_of };

    ghost json = { spec.host_data };

    /// `[HOST,SWITCH,PORT]`, or `[HOST]` without an attachment
    fn to_json(&self, alloc: Global) -> Result<Value, NoMemory> {
        let number = self.host;
        match self.attach {
            Some((switch, port)) => {
                let host = vec![in alloc;
                    Value::from(number),
                    Value::from(switch),
                    Value::from(port),
                ]?;
                Ok(Value::Array(host))
            }
            None => Ok(Value::Array(vec![in alloc; Value::from(number)]?)),
        }
    }
}

impl ToJson<BundleJson> for Link {
    ghost Meaning = { tree.Link };

    ghost meaning = { link_of };

    ghost json = { spec.link_data };

    /// `[SWITCH,PORT,"host",HOST]` or `[SWITCH,PORT,"switch",SWITCH,PORT]`
    fn to_json(&self, alloc: Global) -> Result<Value, NoMemory> {
        let Link { switch, port, to } = *self;
        match to {
            LinkEnd::Host(host) => {
                let kind = text(alloc, "host")?;
                let ends = vec![in alloc;
                    Value::from(switch),
                    Value::from(port),
                    kind,
                    Value::from(host),
                ]?;
                Ok(Value::Array(ends))
            }
            LinkEnd::Switch(next, entry) => {
                let kind = text(alloc, "switch")?;
                let ends = vec![in alloc;
                    Value::from(switch),
                    Value::from(port),
                    kind,
                    Value::from(next),
                    Value::from(entry),
                ]?;
                Ok(Value::Array(ends))
            }
        }
    }
}

/// What the file of a network holds.
#[derive(Drop)]
pub struct NetFile {
    /// The digest of the design file.
    pub design: String,
    pub files: Vec<KeptDigest>,
    pub hosts: Vec<HostPort>,
    pub links: Vec<Link>,
    pub ports: u16,
    pub switches: Vec<u16>,
}

fn net_value(alloc: Global, file: &NetFile) -> Result<Value, NoMemory>
    ensures { IfOk result (λ v. view v ≡ spec.net_data (net_file_of file.now)) }
{
    let design = text(alloc, &file.design);
    let files = array::<BundleJson, KeptDigest>(alloc, &file.files);
    let hosts = array::<BundleJson, HostPort>(alloc, &file.hosts);
    let links = array::<BundleJson, Link>(alloc, &file.links);
    let switches = array::<BundleJson, u16>(alloc, &file.switches);
    let object = with(alloc, Ok(Map::new(alloc)), "cocoon", Ok(Value::from(1u16)));
    let object = with(alloc, object, "design", design);
    let object = with(alloc, object, "files", files);
    let object = with(alloc, object, "hosts", hosts);
    let object = with(alloc, object, "links", links);
    let object = with(alloc, object, "ports", Ok(Value::from(file.ports)));
    let object = with(alloc, object, "switches", switches);
    Ok(Value::Object(object?))
}

/// The text of the file of a network.
pub fn net_text(alloc: Global, file: &NetFile) -> Result<Vec<u8>, NoMemory>
    ensures text { IfOk result (λ v. v.items
        ≡ compact_text (spec.net_data (net_file_of file.now))) }
    ensures reads { IfOk result (λ v. IsJson v.items (spec.net_data (net_file_of file.now))) }
{
    let value = net_value(alloc, file)?;
    Ok(value.to_vec(alloc)?)
}
