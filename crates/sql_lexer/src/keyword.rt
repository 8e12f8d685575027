//! The keywords by their words.

ghost use Rattle.std.specs.Prelude.{◌≡◌, ◌≢◌, ◌↔◌, IsTrue, IfSome, IfNone, All};
ghost use Rattle.std.specs.Str.{str_to_ascii_uppercase};
ghost use Rattle.sql_lexer.specs.Token.{keywords_of, spelling};

use crate::token::Keyword;

const THREE: [Keyword; 8] = [
    Keyword::And,
    Keyword::Asc,
    Keyword::Int,
    Keyword::Max,
    Keyword::Min,
    Keyword::Not,
    Keyword::Set,
    Keyword::Sum,
];

const FOUR: [Keyword; 6] = [
    Keyword::Desc,
    Keyword::Drop,
    Keyword::From,
    Keyword::Into,
    Keyword::Text,
    Keyword::With,
];

const FIVE: [Keyword; 8] = [
    Keyword::Below,
    Keyword::Count,
    Keyword::Group,
    Keyword::Index,
    Keyword::Limit,
    Keyword::Order,
    Keyword::Table,
    Keyword::Where,
];

const SIX: [Keyword; 7] = [
    Keyword::Commit,
    Keyword::Create,
    Keyword::Delete,
    Keyword::Insert,
    Keyword::Select,
    Keyword::Update,
    Keyword::Values,
];

impl Keyword {
    /// The keyword's word, in capitals.
    pub fn spelling(self) -> &'static [u8]
        ensures { result.now ≡ spelling self }
    {
        match self {
            Keyword::AggregateDataInTable => b"AGGREGATEDATAINTABLE",
            Keyword::AggregateDataInVariable => b"AGGREGATEDATAINVARIABLE",
            Keyword::And => b"AND",
            Keyword::As => b"AS",
            Keyword::Asc => b"ASC",
            Keyword::Below => b"BELOW",
            Keyword::By => b"BY",
            Keyword::CollateData => b"COLLATEDATA",
            Keyword::CollateDataIntoIntervals => b"COLLATEDATAINTOINTERVALS",
            Keyword::Commit => b"COMMIT",
            Keyword::Count => b"COUNT",
            Keyword::Create => b"CREATE",
            Keyword::CurrentSnapshot => b"CURRENT_SNAPSHOT",
            Keyword::Delete => b"DELETE",
            Keyword::Desc => b"DESC",
            Keyword::Distinct => b"DISTINCT",
            Keyword::Drop => b"DROP",
            Keyword::From => b"FROM",
            Keyword::Group => b"GROUP",
            Keyword::Index => b"INDEX",
            Keyword::Insert => b"INSERT",
            Keyword::Int => b"INT",
            Keyword::Into => b"INTO",
            Keyword::Limit => b"LIMIT",
            Keyword::Max => b"MAX",
            Keyword::Min => b"MIN",
            Keyword::Not => b"NOT",
            Keyword::Of => b"OF",
            Keyword::On => b"ON",
            Keyword::Or => b"OR",
            Keyword::Order => b"ORDER",
            Keyword::Rollback => b"ROLLBACK",
            Keyword::Select => b"SELECT",
            Keyword::Set => b"SET",
            Keyword::Snapshot => b"SNAPSHOT",
            Keyword::Snapshots => b"SNAPSHOTS",
            Keyword::Sum => b"SUM",
            Keyword::Table => b"TABLE",
            Keyword::Text => b"TEXT",
            Keyword::Update => b"UPDATE",
            Keyword::Values => b"VALUES",
            Keyword::Where => b"WHERE",
            Keyword::With => b"WITH",
        }
    }

    #[tactic(auto, using(crate::proofs::Cases::spelt_in_capitals, crate::proofs::Cases::spelt_in_any_case))]
    fn is_spelt_by(self, word: &[u8]) -> bool
        ensures { IsTrue result ↔ (str_to_ascii_uppercase word.now ≡ spelling self) }
    {
        word.eq_ignore_ascii_case(self.spelling())
    }
}

/// The keyword that the word spells, in any case.
pub(crate) fn keyword_of(word: &[u8]) -> Option<Keyword>
    ensures found { IfSome result (λ k. str_to_ascii_uppercase word.now ≡ spelling k) }
    ensures none { IfNone result ((k : Keyword) → str_to_ascii_uppercase word.now ≢ spelling k) }
{
    keyword_among(keywords_of(word.len()), word)
}

// The keywords whose words have this many bytes.
fn keywords_of(length: usize) -> &'static [Keyword]
    ensures { result.now ≡ keywords_of length }
{
    match length {
        2 => &[
            Keyword::As,
            Keyword::By,
            Keyword::Of,
            Keyword::On,
            Keyword::Or,
        ],
        3 => &THREE,
        4 => &FOUR,
        5 => &FIVE,
        6 => &SIX,
        8 => &[Keyword::Distinct, Keyword::Rollback, Keyword::Snapshot],
        9 => &[Keyword::Snapshots],
        11 => &[Keyword::CollateData],
        16 => &[Keyword::CurrentSnapshot],
        20 => &[Keyword::AggregateDataInTable],
        23 => &[Keyword::AggregateDataInVariable],
        24 => &[Keyword::CollateDataIntoIntervals],
        _ => &[],
    }
}

fn keyword_among(keywords: &[Keyword], word: &[u8]) -> Option<Keyword>
    ensures found { IfSome result (λ k. str_to_ascii_uppercase word.now ≡ spelling k) }
    ensures none { IfNone result
        (All (λ k. str_to_ascii_uppercase word.now ≢ spelling k) keywords.now) }
{
    for keyword in keywords {
        if keyword.is_spelt_by(word) {
            return Some(*keyword);
        }
    }
    None
}
