//! Reserved words and marks: which one of a list stands in a text.
ghost use Rattle.std.specs.Prelude.{◌≡◌, ℕ, List, map, option_map};
ghost use Rattle.cocoon_num.specs.Tokens as tokens;
ghost use Rattle.lexing.specs.Spellings.{IsAmong};

use crate::bytes::{begins, same_bytes};

/// A reserved word or a mark, that is written in one way.
pub trait Spelled: Copy {
    ghost text_of: { Self → List ℕ };

    fn spelling(self) -> &'static str
        ensures { result.now ≡ text_of self };
}

/// The first of these words that is this run.
#[tactic(auto, using(crate::proofs::Lookup::is_next))]
pub fn first_same<W: Spelled>(words: &[W], run: &[u8]) -> Option<W>
    ensures { IsAmong W.text_of words.now run.now result }
{
    for word in words {
        if same_bytes(word.spelling().as_bytes(), run) {
            return Some(*word);
        }
    }
    None
}

/// The first of these marks with which a text begins.
#[tactic(auto, using(crate::proofs::Lookup::begins_next))]
pub fn first_beginning<M: Spelled>(marks: &[M], text: &[u8]) -> Option<M>
    ensures { option_map M.text_of result ≡ tokens.beginning (map M.text_of marks.now) text.now }
{
    for mark in marks {
        if begins(text, mark.spelling().as_bytes()) {
            return Some(*mark);
        }
    }
    None
}
