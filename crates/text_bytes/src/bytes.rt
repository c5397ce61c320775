// What a byte is.
ghost use Rattle.std.specs.Prelude.{◌≡◌};
ghost use Rattle.text_bytes.specs.Bytes.{is_blank, between, is_letter, class_of};
ghost use Rattle.text_bytes.specs.Internal.Answers.{class_named};

// What a byte is outside strings and comments.
#[derive(Clone, Copy)]
pub enum Class {
    Blank,
    Opener,
    Closer,
    Quote,
    Semicolon,
    Letter,
    Other,
}

#[tactic(auto, using(std::proofs::lemmas::Bool::Decides::nat_tests), unfolding(crate::specs::Bytes::is_blank))]
pub fn is_blank(b: u8) -> bool
    ensures { result ≡ is_blank b }
{
    matches!(b, b'\t' | b'\n' | b'\r' | b' ')
}

#[tactic(auto, using(std::proofs::lemmas::Bool::Decides::nat_tests), unfolding(crate::specs::Bytes::between))]
pub fn is_between(b: u8, low: u8, high: u8) -> bool
    ensures { result ≡ between low high b }
{
    low <= b && b <= high
}

#[tactic(auto, using(std::proofs::lemmas::Bool::Decides::nat_tests), unfolding(crate::specs::Bytes::is_letter))]
pub fn is_letter(b: u8) -> bool
    ensures { result ≡ is_letter b }
{
    is_between(b, 33, 126) && !matches!(b, b'(' | b')' | b'"' | b';')
}

#[tactic(auto, using(std::proofs::lemmas::Bool::Decides::nat_tests), unfolding(crate::specs::Bytes::class_of, crate::specs::Bytes::is_blank, crate::specs::Bytes::is_letter, crate::specs::Internal::Answers::class_named))]
pub fn class_of(b: u8) -> Class
    ensures { class_named result ≡ class_of b }
{
    match b {
        b'(' => Class::Opener,
        b')' => Class::Closer,
        b'"' => Class::Quote,
        b';' => Class::Semicolon,
        _ if is_blank(b) => Class::Blank,
        _ if is_between(b, 33, 126) => Class::Letter,
        _ => Class::Other,
    }
}
