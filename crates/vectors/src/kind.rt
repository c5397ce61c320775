// The kinds of records: those that are kept, questions on texts, and questions on tables.
use text_tokens::Span;

#[derive(Clone, Copy, PartialEq, Eq)]
pub(crate) enum Kind {
    Front,
    Back,
    Pad,
    Copies,
    FigureTable,
    FigureCounts,
    MovementTable,
    MovementCounts,
    Bac,
    Tra,
    Int,
    Float,
    Tokens,
    Figure,
    Movement,
    Sample,
    Corner,
    Shown,
    Why,
    Unknown,
}

impl Kind {
    pub(crate) fn asks_tables(self) -> bool {
        matches!(
            self,
            Kind::Sample | Kind::Corner | Kind::Shown | Kind::Why | Kind::Unknown
        )
    }
}

// In the order of the words of `kind_of`.
const KINDS: [Kind; 19] = [
    Kind::Front,
    Kind::Back,
    Kind::Pad,
    Kind::Copies,
    Kind::FigureTable,
    Kind::FigureCounts,
    Kind::MovementTable,
    Kind::MovementCounts,
    Kind::Bac,
    Kind::Tra,
    Kind::Int,
    Kind::Float,
    Kind::Tokens,
    Kind::Figure,
    Kind::Movement,
    Kind::Sample,
    Kind::Corner,
    Kind::Shown,
    Kind::Why,
];

pub(crate) fn kind_of(input: &[u8], word: Span) -> Kind {
    let row = parse_words::word_index(
        input,
        word,
        b"front back pad copies figure_table figure_counts movement_table movement_counts bac tra int float tokens figure movement sample corner shown why",
    );
    KINDS.get(row).copied().unwrap_or(Kind::Unknown)
}
