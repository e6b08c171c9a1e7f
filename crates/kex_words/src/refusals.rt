// Why a program of the language, or a table file, is refused, and where.
ghost use Rattle.std.specs.Prelude.{◌≡◌};
ghost use Rattle.kex_words.specs.Lines.{title_of};

/// A rule that a program or a table file breaks. A program is refused by the first rule that
/// applies, in this order. A table file breaks K18, or K17 before its text or after it, or a rule
/// of its text.
#[derive(Clone, Copy, Debug, PartialEq, Eq)]
pub enum Rule {
    TextTooLong,
    BadToken,
    Unexpected,
    BadRegex,
    BadCount,
    BadSet,
    OverLimit,
    TwiceDefined,
    Unknown,
    NoStart,
    NotTail,
    TooManyPlaces,
    NoText,
    OneStage,
    TooManyStates,
    TooManyPairs,
    BadTable,
    TableTooLong,
}

impl Rule {
    /// The rule's number and name.
    pub fn title(self) -> &'static str
        ensures { result.now ≡ title_of self }
    {
        match self {
            Rule::TextTooLong => "K00 TextTooLong",
            Rule::BadToken => "K01 BadToken",
            Rule::Unexpected => "K02 Unexpected",
            Rule::BadRegex => "K03 BadRegex",
            Rule::BadCount => "K04 BadCount",
            Rule::BadSet => "K05 BadSet",
            Rule::OverLimit => "K06 OverLimit",
            Rule::TwiceDefined => "K07 TwiceDefined",
            Rule::Unknown => "K08 Unknown",
            Rule::NoStart => "K09 NoStart",
            Rule::NotTail => "K10 NotTail",
            Rule::TooManyPlaces => "K11 TooManyPlaces",
            Rule::NoText => "K13 NoText",
            Rule::OneStage => "K14 OneStage",
            Rule::TooManyStates => "K15 TooManyStates",
            Rule::TooManyPairs => "K16 TooManyPairs",
            Rule::BadTable => "K17 BadTable",
            Rule::TableTooLong => "K18 TableTooLong",
        }
    }
}

/// Where in a text or a file a rule is broken. Each rule has one kind of place.
#[derive(Clone, Copy, Debug, PartialEq, Eq)]
pub enum RefusalPlace {
    /// K00, K09, K14, K18: of the whole text or file.
    Nowhere,
    /// K01 to K08, K10. Both count from 1, the column in bytes.
    At { line: u32, column: u32 },
    /// K17. Counted from 1.
    Line(u32),
    /// K11 to K13, K15, K16. Counted from 1.
    Stage(u32),
}

/// The rule that a program or a table file breaks, and where.
#[derive(Clone, Copy, Debug, PartialEq, Eq)]
pub struct Refusal {
    pub rule: Rule,
    pub place: RefusalPlace,
}
