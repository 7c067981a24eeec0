//! How much of a text is read, and its first fault by where that reading stops.
ghost use Rattle.std.specs.Prelude.{◌≡◌, ◌<◌, ◌≤◌, ◌^◌, IfSome, length};
ghost use Rattle.parsing.specs.Depth.{reach};
ghost use Rattle.parsing.specs.Faults as spec;
ghost use Rattle.parsing.specs.Faults.{IndexFits};

use crate::fault::ParseFault;
use crate::stop::Stop;

/// The tokens up to and with the first deep one, or all.
pub fn up_to<T>(tokens: &[T], deep: Option<usize>) -> &[T]
    requires small { length tokens.now ≤ 2 ^ 32 }
    requires within { IfSome deep (λ d. d < length tokens.now) }
    ensures { result.now ≡ reach deep tokens.now }
{
    match deep {
        Some(at) => &tokens[..at + 1],
        None => tokens,
    }
}

/// The fault of a text, of which no more is read than the first deep token.
pub fn fault_of(stop: Stop, deep: Option<usize>) -> ParseFault
    requires { IndexFits (spec.fault_of deep stop) }
    ensures { result ≡ spec.fault_of deep stop }
{
    match stop {
        Stop::Unexpected(at) => match deep {
            Some(first) => {
                if first < at {
                    ParseFault::TooDeep(first as u32)
                } else {
                    ParseFault::Unexpected(at as u32)
                }
            }
            None => ParseFault::Unexpected(at as u32),
        },
        Stop::NoMemory => ParseFault::NoMemory,
    }
}
