//! The depth of texts: how many brackets are open, and how many operators have come.
ghost use Rattle.std.specs.Prelude.{◌≡◌, ◌<◌, ◌+◌, ◌^◌, ℕ, IfSome, List, length};
ghost use Rattle.cocoon_num.specs.Tokens.{Bounds, Kind, brackets_after, is_kind_of, operators_after};
ghost use Rattle.parsing.specs.Depth.{FirstDeepOf, closing, opening, restarting};

/// What a crate says of its tokens, so that the deep ones among them are found.
pub trait Depth {
    type Token;

    /// The kind that one stands for, in this text.
    ghost kind_at: { List ℕ → Self.Token → Kind };

    /// The operators, and up to which depth a token is not deep.
    ghost bounds: { Bounds };

    /// The most brackets that may be open.
    fn most_open() -> u32
        ensures is { result ≡ bounds.open_most }
        ensures small { result < 2 ^ 31 };

    /// The most operators that may have come since the last `;`, `{` or `}`.
    fn most_operators() -> u32
        ensures is { result ≡ bounds.operators_most }
        ensures small { result < 2 ^ 31 };

    /// Whether a token opens a bracket.
    fn opens(token: &Self::Token) -> bool
        ensures { (text : List ℕ) → result ≡ is_kind_of opening (kind_at text token.now) };

    /// Whether it closes one.
    fn closes(token: &Self::Token) -> bool
        ensures { (text : List ℕ) → result ≡ is_kind_of closing (kind_at text token.now) };

    /// Whether operators are counted anew after it.
    fn restarts(token: &Self::Token) -> bool
        ensures { (text : List ℕ) → result ≡ is_kind_of restarting (kind_at text token.now) };

    /// Whether it counts as an operator.
    fn is_operator(token: &Self::Token) -> bool
        ensures { (text : List ℕ) → result ≡ is_kind_of bounds.operators (kind_at text token.now) };
}

/// The first token that is deep.
pub fn first_deep<D: Depth>(tokens: &[D::Token]) -> Option<usize>
    ensures deep { FirstDeepOf D.bounds D.kind_at tokens.now result }
    ensures within { IfSome result (λ d. d < length tokens.now) }
{
    let most_open = D::most_open();
    let most_operators = D::most_operators();
    let mut brackets = 0;
    let mut operators = 0;
    for (at, token) in tokens.iter().enumerate() {
        brackets = open_after::<D>(brackets, token);
        operators = count_after::<D>(operators, token);
        if brackets > most_open || operators > most_operators {
            return Some(at);
        }
    }
    None
}

fn open_after<D: Depth>(brackets: u32, token: &D::Token) -> u32
    requires { brackets < 2 ^ 31 }
    ensures { (text : List ℕ) → result ≡ brackets_after brackets (D.kind_at text token.now) }
{
    if D::opens(token) {
        brackets + 1
    } else if D::closes(token) {
        brackets.saturating_sub(1)
    } else {
        brackets
    }
}

fn count_after<D: Depth>(operators: u32, token: &D::Token) -> u32
    requires { operators < 2 ^ 31 }
    ensures { (text : List ℕ) → result
        ≡ operators_after D.bounds.operators operators (D.kind_at text token.now) }
{
    if D::restarts(token) {
        0
    } else if D::is_operator(token) {
        operators + 1
    } else {
        operators
    }
}
