// What kind of token stands next.
ghost use Rattle.std.specs.Prelude.{◌≡◌, List, ℕ};
ghost use Rattle.text_tokens.specs.Internal.Answers.{token_of};
ghost use Rattle.text_kinds.specs.Internal.Kinds.{is_quoted};
ghost use Rattle.text_kinds.specs.Kinds.{is_opening, is_closing, is_end};
ghost use Rattle.text_kinds.specs.Internal.Kinds.{is_plain};

use text_tokens::Kind;

// (
pub fn is_opening(kind: Kind) -> bool
    ensures { (bs : List ℕ) → result ≡ is_opening (token_of kind bs) }
{
    kind == Kind::Opening
}

// )
pub fn is_closing(kind: Kind) -> bool
    ensures { (bs : List ℕ) → result ≡ is_closing (token_of kind bs) }
{
    kind == Kind::Closing
}

// A string.
pub fn is_quoted(kind: Kind) -> bool
    ensures { (bs : List ℕ) → result ≡ is_quoted (token_of kind bs) }
{
    kind == Kind::Quoted
}

// A plain word.
pub fn is_plain(kind: Kind) -> bool
    ensures { (bs : List ℕ) → result ≡ is_plain (token_of kind bs) }
{
    kind == Kind::Plain
}

// Nothing is left.
pub fn is_ending(kind: Kind) -> bool
    ensures { (bs : List ℕ) → result ≡ is_end (token_of kind bs) }
{
    kind == Kind::Ending
}
