//! Lines and their tokens.

use sql_lexer::{Ending, Keyword, Sign, Token, lex};
use std::alloc::{AllocError, Global};
use std::test::Fail;

// A token that a table wants.
#[derive(Clone, Copy)]
enum Want<'a> {
    Keyword(Keyword),
    Name(&'a [u8]),
    LongWord,
    Integer(i64),
    BigInteger,
    Text(&'a [u8]),
    LongText(usize),
    Sign(Sign),
}

fn is_wanted(token: &Token, want: &Want) -> bool {
    match token {
        Token::Keyword(keyword) => matches!(want, Want::Keyword(wanted) if keyword == wanted),
        Token::Name(name) => matches!(want, Want::Name(bytes) if name.bytes() == *bytes),
        Token::LongWord => matches!(want, Want::LongWord),
        Token::Integer(number) => matches!(want, Want::Integer(wanted) if number == wanted),
        Token::BigInteger => matches!(want, Want::BigInteger),
        Token::Text(text) => matches!(want, Want::Text(bytes) if text.bytes() == *bytes),
        Token::LongText(text) => matches!(want, Want::LongText(length) if text.len() == *length),
        Token::Sign(sign) => matches!(want, Want::Sign(wanted) if sign == wanted),
    }
}

// Whether the line's tokens are these at their places, and end so.
fn reads(
    alloc: Global,
    line: &[u8],
    wanted: &[(usize, Want)],
    ending: Ending,
) -> Result<bool, AllocError> {
    let lexed = lex(alloc, line)?;
    let tokens = lexed.tokens.as_slice();
    let mut same = tokens.len() == wanted.len() && lexed.ending == ending;
    for (placed, (place, want)) in tokens.iter().zip(wanted) {
        same = same && placed.place == *place && is_wanted(&placed.token, want);
    }
    Ok(same)
}

const KEYWORDS: [(&str, Keyword); 43] = [
    ("aggregatedataintable", Keyword::AggregateDataInTable),
    ("aGgReGaTeDaTaInVaRiAbLe", Keyword::AggregateDataInVariable),
    ("AND", Keyword::And),
    ("as", Keyword::As),
    ("aSc", Keyword::Asc),
    ("BELOW", Keyword::Below),
    ("by", Keyword::By),
    ("cOlLaTeDaTa", Keyword::CollateData),
    (
        "COLLATEDATAINTOINTERVALS",
        Keyword::CollateDataIntoIntervals,
    ),
    ("commit", Keyword::Commit),
    ("cOuNt", Keyword::Count),
    ("CREATE", Keyword::Create),
    ("current_snapshot", Keyword::CurrentSnapshot),
    ("dElEtE", Keyword::Delete),
    ("DESC", Keyword::Desc),
    ("distinct", Keyword::Distinct),
    ("dRoP", Keyword::Drop),
    ("FROM", Keyword::From),
    ("group", Keyword::Group),
    ("iNdEx", Keyword::Index),
    ("INSERT", Keyword::Insert),
    ("int", Keyword::Int),
    ("iNtO", Keyword::Into),
    ("LIMIT", Keyword::Limit),
    ("max", Keyword::Max),
    ("mIn", Keyword::Min),
    ("NOT", Keyword::Not),
    ("of", Keyword::Of),
    ("oN", Keyword::On),
    ("OR", Keyword::Or),
    ("order", Keyword::Order),
    ("rOlLbAcK", Keyword::Rollback),
    ("SELECT", Keyword::Select),
    ("set", Keyword::Set),
    ("sNaPsHoT", Keyword::Snapshot),
    ("SNAPSHOTS", Keyword::Snapshots),
    ("sum", Keyword::Sum),
    ("tAbLe", Keyword::Table),
    ("TEXT", Keyword::Text),
    ("update", Keyword::Update),
    ("vAlUeS", Keyword::Values),
    ("WHERE", Keyword::Where),
    ("with", Keyword::With),
];

const WORDS: [(&str, &[(usize, Want<'static>)]); 15] = [
    ("", &[]),
    (" \t ", &[]),
    ("1abc", &[(0, Want::Integer(1)), (1, Want::Name(b"abc"))]),
    (
        "a1_ _ selects",
        &[
            (0, Want::Name(b"a1_")),
            (4, Want::Name(b"_")),
            (6, Want::Name(b"selects")),
        ],
    ),
    (
        "Select\ta.B",
        &[
            (0, Want::Keyword(Keyword::Select)),
            (7, Want::Name(b"a")),
            (8, Want::Sign(Sign::Dot)),
            (9, Want::Name(b"B")),
        ],
    ),
    (
        "abcdefghijklmnopqrstuvwxyz012345",
        &[(0, Want::Name(b"abcdefghijklmnopqrstuvwxyz012345"))],
    ),
    (
        "abcdefghijklmnopqrstuvwxyz0123456 x",
        &[(0, Want::LongWord), (34, Want::Name(b"x"))],
    ),
    (
        "9223372036854775807",
        &[(0, Want::Integer(9223372036854775807))],
    ),
    ("9223372036854775808", &[(0, Want::BigInteger)]),
    ("99999999999999999999999", &[(0, Want::BigInteger)]),
    (
        "0009 00000000000000000000",
        &[(0, Want::Integer(9)), (5, Want::Integer(0))],
    ),
    (
        "-5+1",
        &[
            (0, Want::Sign(Sign::Minus)),
            (1, Want::Integer(5)),
            (2, Want::Sign(Sign::Plus)),
            (3, Want::Integer(1)),
        ],
    ),
    (
        "(,)*",
        &[
            (0, Want::Sign(Sign::Open)),
            (1, Want::Sign(Sign::Comma)),
            (2, Want::Sign(Sign::Close)),
            (3, Want::Sign(Sign::Star)),
        ],
    ),
    (
        "<><=< =>=>",
        &[
            (0, Want::Sign(Sign::NotEqual)),
            (2, Want::Sign(Sign::AtMost)),
            (4, Want::Sign(Sign::Less)),
            (6, Want::Sign(Sign::Equal)),
            (7, Want::Sign(Sign::AtLeast)),
            (9, Want::Sign(Sign::Greater)),
        ],
    ),
    (
        "><",
        &[(0, Want::Sign(Sign::Greater)), (1, Want::Sign(Sign::Less))],
    ),
];

const NAME: Want<'static> = Want::Name(b"a");

const ENDINGS: [(&[u8], &[(usize, Want<'static>)], Ending); 15] = [
    (b"''", &[(0, Want::Text(b""))], Ending::Whole),
    (b"''''", &[(0, Want::Text(b"'"))], Ending::Whole),
    (
        b"'a''b' 'c'a",
        &[(0, Want::Text(b"a'b")), (7, Want::Text(b"c")), (10, NAME)],
        Ending::Whole,
    ),
    (b"a 'abc", &[(0, NAME)], Ending::Unclosed),
    (b"'a''", &[], Ending::Unclosed),
    (b"'", &[], Ending::Unclosed),
    (b"'a\tb'", &[], Ending::BadByte { place: 2 }),
    (b"'a\x01", &[], Ending::BadByte { place: 2 }),
    (b"a'a''\x01'?", &[(0, NAME)], Ending::BadByte { place: 5 }),
    (b"'\x7f'", &[], Ending::BadByte { place: 1 }),
    (b"a ? b", &[(0, NAME)], Ending::BadByte { place: 2 }),
    (b"a;", &[(0, NAME)], Ending::BadByte { place: 1 }),
    (b"a\r", &[(0, NAME)], Ending::BadByte { place: 1 }),
    (b"a\n", &[(0, NAME)], Ending::BadByte { place: 1 }),
    (b"\xc8 !", &[], Ending::BadByte { place: 0 }),
];

#[test]
fn keywords_in_any_case(rt: HostRuntime) -> Result<(), Fail> {
    for (word, keyword) in &KEYWORDS {
        let wanted = [(0, Want::Keyword(*keyword))];
        assert!(rt;
            reads(rt.alloc(), word.as_bytes(), &wanted, Ending::Whole)?,
            "{word}"
        );
    }
    Ok(())
}

#[test]
fn words_numbers_and_signs(rt: HostRuntime) -> Result<(), Fail> {
    for (line, wanted) in &WORDS {
        assert!(rt;
            reads(rt.alloc(), line.as_bytes(), wanted, Ending::Whole)?,
            "{line}"
        );
    }
    Ok(())
}

#[test]
fn texts_and_endings(rt: HostRuntime) -> Result<(), Fail> {
    for (line, wanted, ending) in &ENDINGS {
        assert!(rt; reads(rt.alloc(), line, wanted, *ending)?, "{line:?}");
    }
    Ok(())
}

#[test]
fn texts_up_to_two_hundred_bytes(rt: HostRuntime) -> Result<(), Fail> {
    for length in [64, 200, 201] {
        let text = vec![in rt.alloc(); b'~'; length]?;
        let mut line = vec![in rt.alloc(); b'\'']?;
        line.extend_from_slice(&text)?;
        line.push(b'\'')?;
        let want = if length > 200 {
            Want::LongText(length)
        } else {
            Want::Text(&text)
        };
        assert!(rt;
            reads(rt.alloc(), &line, &[(0, want)], Ending::Whole)?,
            "{length}"
        );
    }
    Ok(())
}
