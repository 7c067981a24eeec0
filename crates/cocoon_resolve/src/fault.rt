//! Why a design is refused.
ghost use Rattle.std.specs.Prelude.{◌≡◌};
ghost use Rattle.cocoon_resolve.specs.RuleTexts.{rule_text};

use cocoon_num::{LimitName, NoMemory};
use cocoon_types::TypeRule;

/// Why a design is refused.
#[derive(Clone, Copy, Drop)]
pub enum TypeFault {
    /// The first rule that fails, at the token of this index.
    Rule(TypeRule, u32),
    /// All rules hold, and this count is the first that is over a limit. It saturates at 2^64 - 1.
    Limit(LimitName, u64),
    NoMemory,
}

impl From<NoMemory> for TypeFault {
    ghost use Rattle.std.specs.Prelude.{◌≡◌};
    ghost use Rattle.cocoon_resolve.specs.declared.fault.TypeFault.TheVariants.{NoMemory};

    ghost from_gives = { λ _ f. f ≡ NoMemory };

    fn from(_: NoMemory) -> TypeFault {
        TypeFault::NoMemory
    }
}

/// The name of a rule, as reports give it.
pub fn rule_name(rule: TypeRule) -> &'static str
    ensures { result.now ≡ rule_text rule }
{
    match rule {
        TypeRule::Twice => "Twice",
        TypeRule::UnknownName => "UnknownName",
        TypeRule::LateFunction => "LateFunction",
        TypeRule::UnknownRole => "UnknownRole",
        TypeRule::NotRefinable => "NotRefinable",
        TypeRule::SinkRefined => "SinkRefined",
        TypeRule::NoHost => "NoHost",
        TypeRule::NoSwitch => "NoSwitch",
        TypeRule::ZeroCount => "ZeroCount",
        TypeRule::TooWide => "TooWide",
        TypeRule::HeaderWidth => "HeaderWidth",
        TypeRule::WrongWidth => "WrongWidth",
        TypeRule::NotBool => "NotBool",
        TypeRule::WrongCount => "WrongCount",
        TypeRule::BadSlice => "BadSlice",
        TypeRule::AfterSend => "AfterSend",
        TypeRule::PacketInGuard => "PacketInGuard",
        TypeRule::SinkForm => "SinkForm",
        TypeRule::HeaderChanged => "HeaderChanged",
        TypeRule::GuardForm => "GuardForm",
        TypeRule::NotSwitchForm => "NotSwitchForm",
        TypeRule::NotWire => "NotWire",
        TypeRule::LastChoice => "LastChoice",
        TypeRule::ForkForm => "ForkForm",
        TypeRule::HiddenChoice => "HiddenChoice",
    }
}
