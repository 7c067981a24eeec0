//! How a value begins.
ghost use Rattle.std.specs.Prelude.{◌≡◌, Err, IfOk, None};
ghost use Rattle.json_scan.specs.Scanning.{Starts, read_value};
ghost use Rattle.json_scan.specs.declared.fault.ScanFault.TheVariants.{NotJson};

use crate::fault::ScanFault;
use crate::number::{JsonNumber, number};
use json::{Reader, Token};

/// How a value begins. Arrays and objects have how deep those inside may nest.
#[derive(Clone, Copy, Drop)]
pub(crate) enum Start {
    Array(usize),
    Object(usize),
    Number(JsonNumber),
    Other,
}

/// Passes the bracket that opens an array or an object, or all of another value.
pub(crate) fn begin(reader: &mut Reader<'_>, depth: usize) -> Result<Start, ScanFault>
    ensures ok { IfOk result (λ start. Starts depth reader.old start reader.new) }
    ensures err { result ≡ Err NotJson → read_value depth reader.old ≡ None }
{
    let Some(token) = reader.next() else {
        return Err(ScanFault::NotJson);
    };
    match token {
        Token::BeginArray => if depth == 0 {
            Err(ScanFault::NotJson)
        } else {
            Ok(Start::Array(depth - 1))
        },
        Token::BeginObject => if depth == 0 {
            Err(ScanFault::NotJson)
        } else {
            Ok(Start::Object(depth - 1))
        },
        Token::Number(text) => match number(text) {
            Some(number) => Ok(Start::Number(number)),
            None => Err(ScanFault::NotJson),
        },
        Token::String(_) => Ok(Start::Other),
        Token::Bool(_) => Ok(Start::Other),
        Token::Null => Ok(Start::Other),
        Token::EndArray | Token::EndObject | Token::Key(_) | Token::Bad => Err(ScanFault::NotJson),
    }
}
