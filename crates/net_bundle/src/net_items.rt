//! The items of the lists of a network, read.
ghost use Rattle.std.specs.Prelude.{◌≡◌, ◌&&◌, ◌||◌, ◌<◌, ◌^◌, ℕ, IfOk, List, nat_le, option_map, string_bytes};
ghost use Rattle.serde_json.specs.View.{view};
ghost use Rattle.cocoon_num.specs.Lists.{each};
ghost use Rattle.p4_ir.specs.NetOf.{end_of, host_port_of, link_of};
ghost use Rattle.p4_ir.specs.NetTree as tree;
ghost use Rattle.net_bundle.specs.NetFileOf.{kept_of};
ghost use Rattle.net_bundle.specs.NetJson as json;
ghost use Rattle.net_bundle.specs.Network as network;
ghost use Rattle.net_bundle.specs.NetForm as spec;

use crate::found_kind::BundleJson;
use crate::net_json::KeptDigest;
use cocoon_num::NoMemory;
use json_forms::{FromJson, has_items, item};
use p4_ir::{HostPort, Link, LinkEnd};
use serde_json::Value;
use std::alloc::Global;

/// 64 hexadecimal digits in lower case.
#[derive(Drop)]
pub(crate) struct Digits {
    pub(crate) text: String,
}

fn is_digit(byte: u8) -> bool
    ensures { result ≡ (nat_le 48 byte && nat_le byte 57) || (nat_le 97 byte && nat_le byte 102) }
{
    (byte >= b'0' && byte <= b'9') || (byte >= b'a' && byte <= b'f')
}

fn are_digits(bytes: &[u8]) -> bool
    ensures { result
        ≡ each (λ b. (nat_le 48 b && nat_le b 57) || (nat_le 97 b && nat_le b 102)) bytes.now }
{
    for byte in bytes {
        if !is_digit(*byte) {
            return false;
        }
    }
    true
}

fn is_digest(text: &str) -> bool
    ensures { result ≡ network.is_digest text.now }
{
    let bytes = text.as_bytes();
    bytes.len() == 64 && are_digits(bytes)
}

impl FromJson<BundleJson> for Digits {
    ghost Meaning = { List ℕ };

    ghost meaning = { λ digest. string_bytes digest.text };

    ghost form = { spec.digest_form };

    fn from_json(alloc: Global, value: &Value) -> Result<Option<Digits>, NoMemory> {
        let Some(text) = value.as_str() else {
            return Ok(None);
        };
        if !is_digest(text) {
            return Ok(None);
        }
        let text = String::from_str(alloc, text)?;
        Ok(Some(Digits { text }))
    }
}

impl FromJson<BundleJson> for KeptDigest {
    ghost Meaning = { json.KeptDigest };

    ghost meaning = { kept_of };

    ghost form = { spec.kept_form };

    /// `[NAME,DIGEST]`
    fn from_json(alloc: Global, value: &Value) -> Result<Option<KeptDigest>, NoMemory> {
        if !has_items(value, 2) {
            return Ok(None);
        }
        let name = item::<BundleJson, String>(alloc, value, 0)?;
        let digest = item::<BundleJson, Digits>(alloc, value, 1)?;
        match (name, digest) {
            (Some(name), Some(digest)) => Ok(Some(KeptDigest {
                name,
                digest: digest.text,
            })),
            _ => Ok(None),
        }
    }
}

/// The switch at this index, and the port after it.
fn location(alloc: Global, value: &Value, index: usize) -> Result<Option<(u16, u16)>, NoMemory>
    requires { index < 2 ^ 32 }
    ensures { IfOk result (λ read. read ≡ spec.location_form index (view value.now)) }
{
    let switch = item::<BundleJson, u16>(alloc, value, index)?;
    let port = item::<BundleJson, u16>(alloc, value, index + 1)?;
    match (switch, port) {
        (Some(switch), Some(port)) => Ok(Some((switch, port))),
        _ => Ok(None),
    }
}

impl FromJson<BundleJson> for HostPort {
    ghost Meaning = { tree.HostPort };

    ghost meaning = { host_port_of };

    ghost form = { spec.host_form };

    /// `[HOST,SWITCH,PORT]`, or `[HOST]` without an attachment
    fn from_json(alloc: Global, value: &Value) -> Result<Option<HostPort>, NoMemory> {
        let host = item::<BundleJson, u64>(alloc, value, 0)?;
        if has_items(value, 1) {
            return match host {
                Some(host) => Ok(Some(HostPort { host, attach: None })),
                None => Ok(None),
            };
        }
        if !has_items(value, 3) {
            return Ok(None);
        }
        let attach = location(alloc, value, 1)?;
        match (host, attach) {
            (Some(host), Some(attach)) => Ok(Some(HostPort {
                host,
                attach: Some(attach),
            })),
            _ => Ok(None),
        }
    }
}

fn has_text(value: &Value, index: usize, text: &str) -> bool
    ensures { result ≡ spec.has_text text.now index (view value.now) }
{
    match value.get(index) {
        Some(item) => match item.as_str() {
            Some(found) => found == text,
            None => false,
        },
        None => false,
    }
}

/// Where the link of the value ends.
fn end(alloc: Global, value: &Value) -> Result<Option<LinkEnd>, NoMemory>
    ensures { IfOk result (λ read. option_map end_of read ≡ spec.end_form (view value.now)) }
{
    if has_items(value, 4) && has_text(value, 2, "host") {
        return match item::<BundleJson, u64>(alloc, value, 3)? {
            Some(host) => Ok(Some(LinkEnd::Host(host))),
            None => Ok(None),
        };
    }
    if has_items(value, 5) && has_text(value, 2, "switch") {
        return match location(alloc, value, 3)? {
            Some((switch, port)) => Ok(Some(LinkEnd::Switch(switch, port))),
            None => Ok(None),
        };
    }
    Ok(None)
}

impl FromJson<BundleJson> for Link {
    ghost Meaning = { tree.Link };

    ghost meaning = { link_of };

    ghost form = { spec.link_form };

    /// `[SWITCH,PORT,"host",HOST]` or `[SWITCH,PORT,"switch",SWITCH,PORT]`
    fn from_json(alloc: Global, value: &Value) -> Result<Option<Link>, NoMemory> {
        let from = location(alloc, value, 0)?;
        let to = end(alloc, value)?;
        match (from, to) {
            (Some((switch, port)), Some(to)) => Ok(Some(Link { switch, port, to })),
            _ => Ok(None),
        }
    }
}
