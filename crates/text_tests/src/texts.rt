//! What lines say, and where they break.

use crate::showing::show;
use retro_base::Refusal;
use sql_text::{Parsed, parse};
use std::alloc::{AllocError, Global};
use std::process::Abort;
use std::test::Fail;

// What a line says in short, or the place where it breaks.
fn answer_in_short(alloc: Global, answer: &Result<Parsed, Refusal>) -> Result<Vec<u8>, AllocError> {
    let mut out = Vec::new(alloc);
    match answer {
        Ok(parsed) => show(alloc, parsed, &mut out)?,
        Err(Refusal::Syntax { place }) => {
            let words = format!(in alloc; "breaks at {}", place)?;
            out.extend_from_slice(words.as_bytes())?;
        }
        Err(_refusal) => out.extend_from_slice(b"another refusal")?,
    }
    Ok(out)
}

fn expect(rt: &impl Abort, alloc: Global, line: &[u8], want: &[u8]) -> Result<(), AllocError> {
    assert!(rt; line.len() <= 4096);
    let answer = parse(alloc, line);
    let shown = answer_in_short(alloc, &answer)?;
    assert_eq!(rt; shown.as_slice(), want, "at {line:?}");
    Ok(())
}

// Each line and tree of the table stand between those words.
fn expect_trees(
    rt: &impl Abort,
    alloc: Global,
    line_ends: (&str, &str),
    tree_ends: (&str, &str),
    table: &[(&str, &str)],
) -> Result<(), Fail> {
    for (line, tree) in table {
        let line = line_of(alloc, line_ends.0, line, 1, line_ends.1)?;
        let tree = line_of(alloc, tree_ends.0, tree, 1, tree_ends.1)?;
        expect(rt, alloc, line.as_bytes(), tree.as_bytes())?;
    }
    Ok(())
}

fn expect_breaks(rt: &impl Abort, alloc: Global, table: &[(&str, u32)]) -> Result<(), Fail> {
    for (line, place) in table {
        let want = format!(in alloc; "breaks at {}", place)?;
        expect(rt, alloc, line.as_bytes(), want.as_bytes())?;
    }
    Ok(())
}

// The head, the part so many times, and the tail.
fn line_of(
    alloc: Global,
    head: &str,
    part: &str,
    count: usize,
    tail: &str,
) -> Result<String, AllocError> {
    let mut line = String::from_str(alloc, head)?;
    for _ in 0..count {
        line.push_str(part)?;
    }
    line.push_str(tail)?;
    Ok(line)
}

const STATEMENTS: [(&str, &str); 22] = [
    ("CREATE TABLE t (a INT)", "create t | a INT"),
    (
        "create table T1 (a int, b Text, _c TEXT)",
        "create T1 | a INT | b TEXT | _c TEXT",
    ),
    ("CREATE INDEX i ON t (c)", "index i t c"),
    ("INSERT INTO t VALUES (1)", "insert t | 1"),
    (
        "INSERT INTO t VALUES (7, -2, 'it''s', '', 'x')",
        "insert t | 7 -2 'it's' '' 'x'",
    ),
    (
        "INSERT INTO t VALUES (1,'a'),(2,'b') , (- 3 , 'c')",
        "insert t | 1 'a' | 2 'b' | -3 'c'",
    ),
    (
        "INSERT INTO t VALUES (9223372036854775807,-9223372036854775807,-0)",
        "insert t | 9223372036854775807 -9223372036854775807 0",
    ),
    ("UPDATE t SET a = 1", "update t | a = 1"),
    (
        "UPDATE t SET a = a + 1, b = 'x' WHERE c <> 2",
        "update t | a = a 1 + | b = 'x' | where [c <> 2]",
    ),
    ("DELETE FROM t", "delete t"),
    (
        "delete from t where a >= 5 or b < 'k'",
        "delete t | where [a >= 5] [b < 'k'] or",
    ),
    ("COMMIT", "commit"),
    ("COMMIT WITH SNAPSHOT", "commit ''"),
    ("COMMIT WITH SNAPSHOT ''", "commit ''"),
    ("commit with snapshot 'end of day'", "commit 'end of day'"),
    ("rollback", "rollback"),
    ("DROP SNAPSHOTS BELOW 12", "drop 12"),
    (
        "DROP SNAPSHOTS BELOW 9223372036854775807",
        "drop 9223372036854775807",
    ),
    (
        "CollateData('SELECT snap_id FROM SnapIds','SELECT v FROM t WHERE k = ''p''','rql_c')",
        "collate [SELECT snap_id FROM SnapIds] [SELECT v FROM t WHERE k = 'p'] [rql_c]",
    ),
    (
        "AggregateDataInVariable ( '' , 'b' , 'c' , 'SUM' )",
        "variable [] [b] [c] [SUM]",
    ),
    (
        "aggregatedataintable('a','b','c','(v,MAX)')",
        "table [a] [b] [c] [(v,MAX)]",
    ),
    (
        "COLLATEDATAINTOINTERVALS('a','b','c')",
        "intervals [a] [b] [c]",
    ),
];

#[test]
fn statements_say_their_trees(rt: HostRuntime) -> Result<(), Fail> {
    expect_trees(&rt, rt.alloc(), ("", ""), ("", ""), &STATEMENTS)
}

const SELECTS: [(&str, &str); 13] = [
    ("SELECT * FROM t", "select * | t"),
    ("\t SELECT*FROM t ", "select * | t"),
    ("SELECT AS OF 0 * FROM t", "as of 0 select * | t"),
    (
        "select as of 9223372036854775807 distinct a from t",
        "as of 9223372036854775807 select distinct a | t",
    ),
    ("SELECT DISTINCT * FROM t", "select distinct * | t"),
    (
        "SELECT a, t.b AS c, 5 FROM t",
        "select a , t.b as c , 5 | t",
    ),
    (
        "SELECT COUNT(*), COUNT(a), SUM(a + 1), MIN(b) AS low, max(b) FROM t",
        "select count * , count a , sum a 1 + , min b as low , max b | t",
    ),
    (
        "SELECT a FROM t, u WHERE t.a = u.b",
        "select a | t u | where [t.a = u.b]",
    ),
    ("SELECT a FROM t GROUP BY a", "select a | t | group a"),
    (
        "SELECT a FROM t GROUP BY a, t.b",
        "select a | t | group a t.b",
    ),
    (
        "SELECT a FROM t ORDER BY a, t.b DESC, c ASC",
        "select a | t | order a up t.b down c up",
    ),
    ("SELECT a FROM t LIMIT 0", "select a | t | limit 0"),
    (
        "select distinct a from t, u where a = 1 group by a order by a desc limit 3",
        "select distinct a | t u | where [a = 1] | group a | order a down | limit 3",
    ),
];

#[test]
fn selects_say_their_trees(rt: HostRuntime) -> Result<(), Fail> {
    expect_trees(&rt, rt.alloc(), ("", ""), ("", ""), &SELECTS)
}

const EXPRESSIONS: [(&str, &str); 12] = [
    ("1 - 2 - 3", "1 2 - 3 -"),
    ("1 + 2 * 3", "1 2 3 * +"),
    ("1 * 2 + 3", "1 2 * 3 +"),
    ("(1 + 2) * 3", "1 2 + 3 *"),
    ("1 - (2 - 3)", "1 2 3 - -"),
    ("2 * 3 * 4", "2 3 * 4 *"),
    ("((a))", "a"),
    ("a - -1", "a -1 -"),
    ("a - - 1", "a -1 -"),
    ("t.a * u . b", "t.a u.b *"),
    ("'x'", "'x'"),
    ("CURRENT_SNAPSHOT ( ) + 1", "now 1 +"),
];

#[test]
fn expressions_come_in_postfix_order(rt: HostRuntime) -> Result<(), Fail> {
    expect_trees(
        &rt,
        rt.alloc(),
        ("SELECT ", " FROM t"),
        ("select ", " | t"),
        &EXPRESSIONS,
    )
}

const CONDITIONS: [(&str, &str); 16] = [
    ("a = 1", "[a = 1]"),
    ("a <> 1", "[a <> 1]"),
    ("a < 1", "[a < 1]"),
    ("a <= 1", "[a <= 1]"),
    ("a > 1", "[a > 1]"),
    ("a >= 1", "[a >= 1]"),
    ("t.a = 'x'", "[t.a = 'x']"),
    ("-1 < current_snapshot()", "[-1 < now]"),
    ("NOT a = 1 AND b = 2", "[a = 1] not [b = 2] and"),
    ("a = 1 OR b = 2 AND c = 3", "[a = 1] [b = 2] [c = 3] and or"),
    (
        "(a = 1 OR b = 2) AND c = 3",
        "[a = 1] [b = 2] or [c = 3] and",
    ),
    ("NOT (a = 1 OR b = 2)", "[a = 1] [b = 2] or not"),
    ("NOT NOT a = 1", "[a = 1] not not"),
    (
        "a = 1 AND b = 2 AND c = 3",
        "[a = 1] [b = 2] and [c = 3] and",
    ),
    ("a = 1 OR b = 2 OR c = 3", "[a = 1] [b = 2] or [c = 3] or"),
    ("((a = 1))", "[a = 1]"),
];

#[test]
fn conditions_come_in_postfix_order(rt: HostRuntime) -> Result<(), Fail> {
    expect_trees(
        &rt,
        rt.alloc(),
        ("DELETE FROM t WHERE ", ""),
        ("delete t | where ", ""),
        &CONDITIONS,
    )
}

const ENDS_TOO_EARLY: [(&str, u32); 20] = [
    ("", 0),
    ("   ", 3),
    ("CREATE TABLE t (a INT", 21),
    ("CREATE INDEX i ON t", 19),
    ("INSERT INTO t VALUES (1),", 25),
    ("UPDATE t SET a =", 16),
    ("DELETE FROM", 11),
    ("SELECT * FROM", 13),
    ("SELECT a AS", 11),
    ("SELECT (a", 9),
    ("SELECT a FROM t WHERE", 21),
    ("SELECT a FROM t WHERE a =", 25),
    ("SELECT a FROM t GROUP", 21),
    ("SELECT a FROM t ORDER BY", 24),
    ("SELECT a FROM t LIMIT", 21),
    ("SELECT AS OF 3", 14),
    ("COMMIT WITH", 11),
    ("DROP SNAPSHOTS BELOW", 20),
    ("CollateData('a','b','c'", 23),
    ("CollateData('a','b','c)", 23),
];

#[test]
fn lines_that_end_too_early_break_at_their_end(rt: HostRuntime) -> Result<(), Fail> {
    expect_breaks(&rt, rt.alloc(), &ENDS_TOO_EARLY)
}

const WRONG_IN_CHANGES: [(&str, u32); 21] = [
    ("CREATE TABLE t ()", 16),
    ("CREATE TABLE t (a INT,)", 22),
    ("CREATE TABLE t (a NUMBER)", 18),
    ("CREATE TABLE select (a INT)", 13),
    ("CREATE TABLE t (a INT) t", 23),
    ("CREATE INDEX i ON t (a, b)", 22),
    ("CREATE VIEW v", 7),
    ("INSERT INTO t VALUES ()", 22),
    ("INSERT INTO t VALUES (1 2)", 24),
    ("INSERT INTO t VALUES (- -1)", 24),
    ("INSERT INTO t VALUES (-'a')", 23),
    ("INSERT INTO t VALUES (a)", 22),
    ("INSERT INTO t VALUES (1.5)", 23),
    ("INSERT INTO t VALUES (1 + 2)", 24),
    ("INSERT INTO t VALUES (1) (2)", 25),
    ("UPDATE t SET a + 1", 15),
    ("UPDATE t SET a = 1 b = 2", 19),
    ("UPDATE t SET t.a = 1", 14),
    ("UPDATE t SET a = COUNT(*)", 17),
    ("DELETE t", 7),
    ("DELETE FROM t, u", 13),
];

#[test]
fn changes_break_at_their_first_wrong_token(rt: HostRuntime) -> Result<(), Fail> {
    expect_breaks(&rt, rt.alloc(), &WRONG_IN_CHANGES)
}

const WRONG_IN_SELECTS: [(&str, u32); 27] = [
    ("SELECT AS OF -1 * FROM t", 13),
    ("SELECT AS OF * FROM t", 13),
    ("SELECT DISTINCT AS OF 1 * FROM t", 16),
    ("SELECT *, a FROM t", 8),
    ("SELECT FROM t", 7),
    ("SELECT a b FROM t", 9),
    ("SELECT a AS 1 FROM t", 12),
    ("SELECT SUM(*) FROM t", 11),
    ("SELECT COUNT() FROM t", 13),
    ("SELECT COUNT(a AS b) FROM t", 15),
    ("SELECT 1 + COUNT(*) FROM t", 11),
    ("SELECT a.1 FROM t", 9),
    ("SELECT a.b.c FROM t", 10),
    ("SELECT -a FROM t", 8),
    ("SELECT -(1) FROM t", 8),
    ("SELECT (a FROM t", 10),
    ("SELECT a) FROM t", 8),
    ("SELECT CURRENT_SNAPSHOT FROM t", 24),
    ("SELECT a FROM t, u, v", 18),
    ("SELECT a FROM t u", 16),
    ("SELECT a FROM t WHERE ", 22),
    ("SELECT a FROM t LIMIT -1", 22),
    ("SELECT a FROM t LIMIT 1 ORDER BY a", 24),
    ("SELECT a FROM t ORDER BY a ASC DESC", 31),
    ("SELECT a FROM t ORDER BY 1", 25),
    ("SELECT a FROM t GROUP BY a WHERE a = 1", 27),
    ("SELECT a FROM t ORDER a", 22),
];

#[test]
fn selects_break_at_their_first_wrong_token(rt: HostRuntime) -> Result<(), Fail> {
    expect_breaks(&rt, rt.alloc(), &WRONG_IN_SELECTS)
}

const WRONG_IN_CONDITIONS: [(&str, u32); 10] = [
    ("DELETE FROM t WHERE ()", 21),
    ("DELETE FROM t WHERE a AND b = 1", 22),
    ("DELETE FROM t WHERE a = 1 + 1", 26),
    ("DELETE FROM t WHERE a = 1 = 1", 26),
    ("DELETE FROM t WHERE (a ) = 1", 23),
    ("DELETE FROM t WHERE NOT AND a = 1", 24),
    ("DELETE FROM t WHERE a = 1 OR ", 29),
    ("DELETE FROM t WHERE (a = 1", 26),
    ("DELETE FROM t WHERE a = NOT b = 1", 24),
    ("DELETE FROM t WHERE a < > 1", 24),
];

#[test]
fn conditions_break_at_their_first_wrong_token(rt: HostRuntime) -> Result<(), Fail> {
    expect_breaks(&rt, rt.alloc(), &WRONG_IN_CONDITIONS)
}

const WRONG_IN_OTHER_LINES: [(&str, u32); 14] = [
    ("COMMIT 'x'", 7),
    ("COMMIT WITH SNAPSHOT 5", 21),
    ("COMMIT COMMIT", 7),
    ("ROLLBACK WORK", 9),
    ("DROP SNAPSHOTS BELOW -1", 21),
    ("DROP TABLE t", 5),
    ("EXPLAIN", 0),
    ("COLLATEDATA 'a', 'b', 'c'", 12),
    ("COLLATEDATA ('a', 'b')", 21),
    ("COLLATEDATA ('a', b, 'c')", 18),
    ("CollateDataIntoIntervals('a','b','c','d')", 36),
    ("AGGREGATEDATAINVARIABLE('a','b','c')", 35),
    ("AGGREGATEDATAINTABLE('a','b','c','(v,MAX)'", 42),
    ("AGGREGATEDATAINTABLE('a','b','c','(v,MAX)') t", 44),
];

#[test]
fn other_lines_break_at_their_first_wrong_token(rt: HostRuntime) -> Result<(), Fail> {
    expect_breaks(&rt, rt.alloc(), &WRONG_IN_OTHER_LINES)
}

const TOO_LONG: [(&str, u32); 3] = [
    ("INSERT INTO t VALUES (9223372036854775808)", 22),
    ("SELECT * FROM t LIMIT 9223372036854775808", 22),
    ("SELECT * FROM a_name_of_more_than_thirty_two_bytes", 14),
];

#[test]
fn numbers_and_words_that_are_too_long_break_a_line(rt: HostRuntime) -> Result<(), Fail> {
    expect_breaks(&rt, rt.alloc(), &TOO_LONG)
}

const BAD_BYTES: [(&str, u32); 3] = [
    ("SELECT FROM ?", 12),
    ("SELECT * FROM t;", 15),
    ("COMMIT WITH SNAPSHOT 'a\tb'", 23),
];

#[test]
fn a_byte_of_no_token_comes_before_all_else(rt: HostRuntime) -> Result<(), Fail> {
    expect_breaks(&rt, rt.alloc(), &BAD_BYTES)
}

const NOT_CLOSED: [(&str, u32); 5] = [
    ("INSERT INTO t VALUES ('abc", 26),
    ("SELECT * 'abc", 13),
    ("COMMIT 'x", 9),
    ("SELECT FROM 'abc", 7),
    ("SELECT a FROM t WHERE b = 'it''s", 32),
];

#[test]
fn a_text_that_is_not_closed_breaks_at_the_end(rt: HostRuntime) -> Result<(), Fail> {
    expect_breaks(&rt, rt.alloc(), &NOT_CLOSED)
}

// A line whose part stands so many times, and its tree likewise.
fn expect_repeated(
    rt: &impl Abort,
    alloc: Global,
    count: usize,
    line: (&str, &str, &str),
    tree: (&str, &str, &str),
) -> Result<(), Fail> {
    let line = line_of(alloc, line.0, line.1, count, line.2)?;
    let tree = line_of(alloc, tree.0, tree.1, count, tree.2)?;
    expect(rt, alloc, line.as_bytes(), tree.as_bytes())?;
    Ok(())
}

#[test]
fn a_table_has_at_most_sixteen_columns(rt: HostRuntime) -> Result<(), Fail> {
    let line = ("CREATE TABLE t (c INT", ", c INT", ")");
    expect_repeated(
        &rt,
        rt.alloc(),
        15,
        line,
        ("create t | c INT", " | c INT", ""),
    )?;
    expect_repeated(&rt, rt.alloc(), 16, line, ("breaks at 126", "", ""))
}

#[test]
fn a_label_has_at_most_64_bytes(rt: HostRuntime) -> Result<(), Fail> {
    let line = ("COMMIT WITH SNAPSHOT '", "x", "'");
    expect_repeated(&rt, rt.alloc(), 64, line, ("commit '", "x", "'"))?;
    expect_repeated(&rt, rt.alloc(), 65, line, ("breaks at 21", "", ""))
}

#[test]
fn a_text_has_at_most_200_bytes(rt: HostRuntime) -> Result<(), Fail> {
    let line = ("INSERT INTO t VALUES ('", "x", "')");
    expect_repeated(&rt, rt.alloc(), 200, line, ("insert t | '", "x", "'"))?;
    expect_repeated(&rt, rt.alloc(), 201, line, ("breaks at 22", "", ""))
}

#[test]
fn a_name_has_at_most_32_bytes(rt: HostRuntime) -> Result<(), Fail> {
    let line = ("SELECT * FROM ", "n", "");
    expect_repeated(&rt, rt.alloc(), 32, line, ("select * | ", "n", ""))?;
    expect_repeated(&rt, rt.alloc(), 33, line, ("breaks at 14", "", ""))
}

#[test]
fn a_line_of_values_is_read_whole(rt: HostRuntime) -> Result<(), Fail> {
    let line = ("INSERT INTO t VALUES (5", ",5", ")");
    expect_repeated(&rt, rt.alloc(), 2036, line, ("insert t | 5", " 5", ""))
}

#[test]
fn a_line_of_nots_is_read_whole(rt: HostRuntime) -> Result<(), Fail> {
    let line = ("DELETE FROM t WHERE ", "NOT ", "a = 1");
    expect_repeated(
        &rt,
        rt.alloc(),
        1017,
        line,
        ("delete t | where [a = 1]", " not", ""),
    )
}

#[test]
fn a_line_of_minus_signs_is_read_whole(rt: HostRuntime) -> Result<(), Fail> {
    let line = ("SELECT 1", "- -1", " FROM t");
    expect_repeated(&rt, rt.alloc(), 1020, line, ("select 1", " -1 -", " | t"))
}

#[test]
fn a_line_of_parentheses_is_read_whole(rt: HostRuntime) -> Result<(), Fail> {
    let alloc = rt.alloc();
    let opened = line_of(alloc, "SELECT ", "(", 2040, "1")?;
    let line = line_of(alloc, opened.as_str(), ")", 2040, " FROM t")?;
    expect(&rt, alloc, line.as_bytes(), b"select 1 | t")?;
    let nested = line_of(alloc, "SELECT ", "1-(", 1020, "1")?;
    let line = line_of(alloc, nested.as_str(), ")", 1000, " FROM t")?;
    expect(&rt, alloc, line.as_bytes(), b"breaks at 4069")?;
    Ok(())
}

#[test]
fn differences_nested_to_the_right_stay_so(rt: HostRuntime) -> Result<(), Fail> {
    let alloc = rt.alloc();
    let nested = line_of(alloc, "SELECT ", "1-(", 1020, "1")?;
    let line = line_of(alloc, nested.as_str(), ")", 1020, " FROM t")?;
    let numbers = line_of(alloc, "select ", "1 ", 1020, "1")?;
    let want = line_of(alloc, numbers.as_str(), " -", 1020, " | t")?;
    expect(&rt, alloc, line.as_bytes(), want.as_bytes())?;
    Ok(())
}
