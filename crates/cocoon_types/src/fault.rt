//! The rules as the code names them, and what holds the first of the faults that are noted in it.
ghost use Rattle.std.specs.Prelude.{◌≡◌, option_map};
ghost use Rattle.cocoon_types.specs.FirstFault.{comes_before as is_before, phase_at, rank as rank_of};
ghost use Rattle.cocoon_types.specs.Noting.{is_held, Notes, same_fault};
ghost use Rattle.cocoon_types.specs.RuleNames.{fault_at, fault_of, rule_of};

use std::marker::Model;

/// A rule of designs. The rules stand in the order of their phases, and of their table in
/// docs/LANGUAGE.md.
#[derive(Clone, Copy, Drop)]
pub enum TypeRule {
    Twice,
    UnknownName,
    LateFunction,
    UnknownRole,
    NotRefinable,
    SinkRefined,
    NoHost,
    NoSwitch,
    ZeroCount,
    TooWide,
    HeaderWidth,
    WrongWidth,
    NotBool,
    WrongCount,
    BadSlice,
    AfterSend,
    PacketInGuard,
    SinkForm,
    HeaderChanged,
    GuardForm,
    NotSwitchForm,
    NotWire,
    LastChoice,
    ForkForm,
    HiddenChoice,
}

/// The first of the faults that were noted, if any was.
#[derive(Drop)]
pub struct Noted {
    first: Option<(TypeRule, u32)>,
}

impl Model for Noted {
    ghost use Rattle.std.specs.Prelude.{option_map, Option};
    ghost use Rattle.cocoon_types.specs.FirstFault.{Fault};
    ghost use Rattle.cocoon_types.specs.RuleNames.{fault_of};

    ghost Value = { Option Fault };

    ghost view = { λ noted. option_map fault_of noted.first };
}

impl Noted {
    /// Nothing was noted.
    pub fn new() -> Noted
        ensures { result ≡ None }
    {
        Noted { first: None }
    }

    /// Notes the fault of this rule at a token index.
    pub fn note(&mut self, rule: TypeRule, at: u32)
        ensures { Notes (same_fault (fault_at rule at)) self.old self.new }
    {
        self.first = earliest(self.first, rule, at);
    }

    /// Notes what another one holds.
    pub fn note_held(&mut self, other: &Noted)
        ensures { Notes (is_held other.now) self.old self.new }
    {
        if let Some((rule, at)) = other.first {
            self.note(rule, at);
        }
    }

    /// The rule and the token index of the first fault.
    pub fn found(&self) -> Option<(TypeRule, u32)>
        ensures { option_map fault_of result ≡ self.now }
    {
        self.first
    }
}

/// The earlier of the fault that is held, if any is, and of one more.
fn earliest(held: Option<(TypeRule, u32)>, rule: TypeRule, at: u32) -> Option<(TypeRule, u32)>
    ensures { Notes (same_fault (fault_at rule at)) (option_map fault_of held)
        (option_map fault_of result) }
{
    match held {
        Some((first, first_at)) => {
            if comes_before(rule, at, first, first_at) {
                Some((rule, at))
            } else {
                Some((first, first_at))
            }
        }
        None => Some((rule, at)),
    }
}

/// The first fault is told before the second.
fn comes_before(first: TypeRule, first_at: u32, second: TypeRule, second_at: u32) -> bool
    ensures { result ≡ is_before (fault_at first first_at) (fault_at second second_at) }
{
    let (first_rank, second_rank) = (rank(first), rank(second));
    let (first_phase, second_phase) = (phase(first_rank), phase(second_rank));
    first_phase < second_phase
        || first_phase == second_phase
            && (first_at < second_at || first_at == second_at && first_rank < second_rank)
}

/// The phase of the rule that stands there in the table.
fn phase(rank: u32) -> u32
    ensures { result ≡ phase_at rank }
{
    if rank < 8 {
        1
    } else if rank < 17 {
        2
    } else {
        3
    }
}

/// Where the rule stands in the table, from 0.
fn rank(rule: TypeRule) -> u32
    ensures { result ≡ rank_of (rule_of rule) }
{
    match rule {
        TypeRule::Twice => 0,
        TypeRule::UnknownName => 1,
        TypeRule::LateFunction => 2,
        TypeRule::UnknownRole => 3,
        TypeRule::NotRefinable => 4,
        TypeRule::SinkRefined => 5,
        TypeRule::NoHost => 6,
        TypeRule::NoSwitch => 7,
        TypeRule::ZeroCount => 8,
        TypeRule::TooWide => 9,
        TypeRule::HeaderWidth => 10,
        TypeRule::WrongWidth => 11,
        TypeRule::NotBool => 12,
        TypeRule::WrongCount => 13,
        TypeRule::BadSlice => 14,
        TypeRule::AfterSend => 15,
        TypeRule::PacketInGuard => 16,
        TypeRule::SinkForm => 17,
        TypeRule::HeaderChanged => 18,
        TypeRule::GuardForm => 19,
        TypeRule::NotSwitchForm => 20,
        TypeRule::NotWire => 21,
        TypeRule::LastChoice => 22,
        TypeRule::ForkForm => 23,
        TypeRule::HiddenChoice => 24,
    }
}
