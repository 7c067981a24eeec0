//! Files of certificates, read token by token.
ghost use Rattle.std.specs.Prelude.{◌≡◌, ◌^◌, ℕ, ℤ, codes, IfErr, IfOk, List as Items, map, Ok, Option, option_and_then, option_map};
ghost use Rattle.serde_json.specs.Data.{Data};
ghost use Rattle.json_forms.specs.Forms.{fitting, integer_of, list_form, number_form};
ghost use Rattle.json_forms.specs.Reading.{Answered, Refused, Shaped};
ghost use Rattle.json_scan.specs.Numbers.{num_of};
ghost use Rattle.json_scan.specs.Pairs.{object_form};
ghost use Rattle.cnf_core.specs.Certificates as tree;
ghost use Rattle.cnf_core.specs.CertsOf.{cert_of, certs_of, instance_of, log_of, step_of};
ghost use Rattle.cert_text.specs.LogsForm.{instance_form, is_literal, literal_form, log_form, step_form};
ghost use Rattle.cert_text.specs.CertsForm as spec;

use crate::kind::CertJson;
use cnf_core::{Cert, Certs, Clause, Instance, Lit, Literals, Log, Step};
use cocoon_num::{List, Text};
use json::Reader;
use json_forms::FormFault;
use json_scan::{JsonNumber, ScanFault, ScanJson, scan_all, scan_items, scan_members, scan_number};
use std::alloc::Global;

/// The literal of this number, if it is one.
fn literal(number: Option<JsonNumber>) -> Option<Lit>
    ensures { option_map (λ l. l.number) result
        ≡ fitting is_literal (option_and_then integer_of (option_map num_of number)) }
{
    match number {
        Some(JsonNumber::Unsigned(whole)) if whole > 0 && whole < 2_147_483_648 => Some(Lit {
            number: whole as i32,
        }),
        Some(JsonNumber::Negative(whole)) if whole < 0 && whole > -2_147_483_648 => Some(Lit {
            number: whole as i32,
        }),
        _ => None,
    }
}

impl ScanJson<CertJson> for Lit {
    ghost Meaning = { ℤ };

    ghost meaning = { λ l. l.number };

    ghost form = { literal_form };

    /// `LIT`
    fn scan(_: Global, reader: &mut Reader<'_>, depth: usize) -> Result<Option<Lit>, ScanFault> {
        let number = scan_number(reader, depth)?;
        Ok(literal(number))
    }
}

/// The step of its literals and its hints, where both are there.
fn step(pair: Option<(Option<Vec<Lit>>, Option<Vec<u32>>)>) -> Option<Step>
    ensures { option_map step_of result ≡ option_and_then spec.step_of_two (option_map (λ pair. (
      option_map (λ lits. map (λ l. l.number) lits.items) pair.0,
      option_map (λ hints. map (λ h. h) hints.items) pair.1,
    )) pair) }
{
    let (lits, hints) = pair?;
    match (lits, hints) {
        (Some(lits), Some(hints)) => Some(Step {
            clause: Clause {
                lits: Literals::from(lits),
            },
            hints: List::from(hints),
        }),
        _ => None,
    }
}

impl ScanJson<CertJson> for Step {
    ghost Meaning = { tree.Step };

    ghost meaning = { step_of };

    ghost form = { step_form };

    /// `[[LIT],[HINT]]`
    fn scan(
        alloc: Global,
        reader: &mut Reader<'_>,
        depth: usize,
    ) -> Result<Option<Step>, ScanFault> {
        let pair = scan_items::<CertJson, Vec<Lit>, Vec<u32>>(alloc, reader, depth)?;
        Ok(step(pair))
    }
}

/// The log of these steps, where they are there.
fn log(steps: Option<Vec<Step>>) -> Option<Log>
    ensures { option_map log_of result ≡ option_map (λ steps. map step_of steps.items) steps }
{
    match steps {
        Some(steps) => Some(Log {
            steps: List::from(steps),
        }),
        None => None,
    }
}

impl ScanJson<CertJson> for Log {
    ghost Meaning = { Items tree.Step };

    ghost meaning = { log_of };

    ghost form = { log_form };

    /// `[STEP]`
    fn scan(
        alloc: Global,
        reader: &mut Reader<'_>,
        depth: usize,
    ) -> Result<Option<Log>, ScanFault> {
        let steps = <Vec<Step> as ScanJson<CertJson>>::scan(alloc, reader, depth)?;
        Ok(log(steps))
    }
}

/// The instance of its assumption and its values, where both are there.
fn instance(pair: Option<(Option<u32>, Option<Vec<u64>>)>) -> Option<Instance>
    ensures { option_map instance_of result
        ≡ option_and_then spec.instance_of_two (option_map (λ pair. (
          option_map (λ n. n) pair.0,
          option_map (λ values. map (λ v. v) values.items) pair.1,
        )) pair) }
{
    let (number, values) = pair?;
    match (number, values) {
        (Some(number), Some(values)) => Some(Instance {
            number,
            values: List::from(values),
        }),
        _ => None,
    }
}

impl ScanJson<CertJson> for Instance {
    ghost Meaning = { tree.Instance };

    ghost meaning = { instance_of };

    ghost form = { instance_form };

    /// `[ASSUMPTION,[VALUE]]`
    fn scan(
        alloc: Global,
        reader: &mut Reader<'_>,
        depth: usize,
    ) -> Result<Option<Instance>, ScanFault> {
        let pair = scan_items::<CertJson, u32, Vec<u64>>(alloc, reader, depth)?;
        Ok(instance(pair))
    }
}

/// The certificate of its instances and its log, where both are there.
fn cert(pair: Option<(Option<Vec<Instance>>, Option<Log>)>) -> Option<Cert>
    ensures { option_map cert_of result ≡ option_and_then spec.cert_of_two (option_map (λ pair. (
      option_map (λ instances. map instance_of instances.items) pair.0,
      option_map log_of pair.1,
    )) pair) }
{
    let (instances, log) = pair?;
    match (instances, log) {
        (Some(instances), Some(log)) => Some(Cert {
            instances: List::from(instances),
            log,
        }),
        _ => None,
    }
}

impl ScanJson<CertJson> for Cert {
    ghost Meaning = { tree.Cert };

    ghost meaning = { cert_of };

    ghost form = { spec.cert_form };

    /// `{"instances":[INSTANCE],"log":LOG}`
    fn scan(
        alloc: Global,
        reader: &mut Reader<'_>,
        depth: usize,
    ) -> Result<Option<Cert>, ScanFault> {
        let pair = scan_members::<CertJson, Vec<Instance>, Log>(
            alloc,
            reader,
            depth,
            "instances",
            "log",
        )?;
        Ok(cert(pair))
    }
}

/// Both members of the file, each where it is of its form; the version may be any number.
#[derive(Drop)]
struct BothMembers {
    certs: Option<Vec<Cert>>,
    cocoon: Option<u64>,
}

/// Both members, where there are two.
fn members(pair: Option<(Option<Vec<Cert>>, Option<u64>)>) -> Option<BothMembers>
    ensures { option_map (λ m.
        spec.both (option_map (λ certs. map cert_of certs.items) m.certs) m.cocoon) result
        ≡ option_map (λ pair.
        spec.both (option_map (λ certs. map cert_of certs.items) pair.0)
        (option_map (λ n. n) pair.1)) pair }
{
    match pair {
        Some((certs, cocoon)) => Some(BothMembers { certs, cocoon }),
        None => None,
    }
}

impl ScanJson<CertJson> for BothMembers {
    ghost Meaning = { Option (Items tree.Cert) × Option ℕ };

    ghost meaning = { λ m. (option_map (λ certs. map cert_of certs.items) m.certs, m.cocoon) };

    ghost form = { object_form (list_form spec.cert_form) (number_form (2 ^ 64))
        (codes "certs") (codes "cocoon") };

    /// `{"certs":[CERT],"cocoon":VERSION}`
    fn scan(
        alloc: Global,
        reader: &mut Reader<'_>,
        depth: usize,
    ) -> Result<Option<BothMembers>, ScanFault> {
        let pair = scan_members::<CertJson, Vec<Cert>, u64>(
            alloc, reader, depth, "certs", "cocoon",
        )?;
        Ok(members(pair))
    }
}

/// The certificates, where both members are of their form.
fn certs_of_members(alloc: Global, members: Option<BothMembers>) -> Result<Certs, FormFault>
    ensures certs { IfOk result (λ certs. spec.certs_of_two (option_map (λ m.
        (option_map (λ certs. map cert_of certs.items) m.certs, m.cocoon)) members)
        ≡ Ok (certs_of certs)) }
    ensures fault { IfErr result (λ fault. Shaped (spec.certs_of_two (option_map (λ m.
        (option_map (λ certs. map cert_of certs.items) m.certs, m.cocoon)) members)) fault) }
{
    let Some(members) = members else {
        return Err(FormFault::Shape(Text::from(alloc, b"")?));
    };
    let cocoon = members.cocoon;
    let Some(certs) = members.certs else {
        return Err(FormFault::Shape(Text::from(alloc, b"/certs")?));
    };
    match cocoon {
        Some(version) if version == 1 => Ok(Certs {
            certs: List::from(certs),
        }),
        _ => Err(FormFault::Shape(Text::from(alloc, b"/cocoon")?)),
    }
}

/// The certificates of these bytes, or why they are no file of certificates.
pub fn from_json(alloc: Global, bytes: &[u8]) -> Result<Certs, FormFault>
    ensures certs { IfOk result (λ certs.
        Answered spec.certs_form bytes.now (Ok (certs_of certs))) }
    ensures fault { IfErr result (λ fault. Refused spec.certs_form bytes.now fault) }
{
    match scan_all::<CertJson, BothMembers>(alloc, bytes) {
        Ok(members) => certs_of_members(alloc, members),
        Err(ScanFault::NotJson) => Err(FormFault::NotJson),
        Err(ScanFault::NoMemory) => Err(FormFault::NoMemory),
    }
}
