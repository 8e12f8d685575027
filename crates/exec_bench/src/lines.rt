//! The statements. In each `~` stands for a hundred letters, `%` for eighty, `^` for a hundred of the greatest byte,
//! and `#` for thirty-one letters.

/// In sixteen pages the catalog's first page tells thirteen tables, and one page is free. A fourteenth table needs two,
/// and so does an index: one for its row, and its root page.
pub const FULL: [&str; 16] = [
    "CREATE TABLE a(x INT)",
    "CREATE TABLE b(x INT)",
    "CREATE TABLE c(x INT)",
    "CREATE TABLE d(x INT)",
    "CREATE TABLE e(x INT)",
    "CREATE TABLE f(x INT)",
    "CREATE TABLE g(x INT)",
    "CREATE TABLE h(x INT)",
    "CREATE TABLE i(x INT)",
    "CREATE TABLE j(x INT)",
    "CREATE TABLE k(x INT)",
    "CREATE TABLE l(x INT)",
    "CREATE TABLE m(x INT)",
    "CREATE TABLE n(x INT)",
    "CREATE INDEX n ON m(x)",
    "CREATE TABLE o(x INT)",
];

/// A table of which all row numbers are given but the last two: an INSERT that wants more than are left is refused.
pub const LAST_NUMBERS: [&str; 8] = [
    "INSERT INTO t VALUES (1),(2),(3)",
    "INSERT INTO t VALUES (1)",
    "INSERT INTO t VALUES (2),(3)",
    "INSERT INTO t VALUES (2)",
    "INSERT INTO t VALUES (3)",
    "UPDATE t SET k = k + 10",
    "SELECT k FROM t",
    "DELETE FROM t",
];

/// A row takes 819 bytes and those of its fifth text: 900 are the most.
pub const LONG: [&str; 5] = [
    "CREATE TABLE t(a TEXT, b TEXT, c TEXT, d TEXT, e TEXT)",
    "INSERT INTO t VALUES ('~~','~~','~~','~~','%p')",
    "INSERT INTO t VALUES ('~~','~~','~~','~~','%pp')",
    "UPDATE t SET e = '%pp'",
    "SELECT COUNT(*) FROM t",
];

/// A refusal of each kind.
pub const REFUSED: [&str; 17] = [
    "CREATE TABLE t(a INT)",
    "CREATE TABLE t(b TEXT)",
    "CREATE TABLE u(b INT, b TEXT)",
    "CREATE INDEX i ON t(a)",
    "CREATE INDEX i ON t(a)",
    "CREATE INDEX j ON t(b)",
    "INSERT INTO u VALUES (1)",
    "SELECT b FROM t",
    "INSERT INTO t VALUES ('x')",
    "INSERT INTO t VALUES (9223372036854775807)",
    "UPDATE t SET a = a + 1",
    "UPDATE t SET a = 'x'",
    "UPDATE t SET b = 1",
    "DELETE FROM t WHERE a = 'x'",
    "SELECT * FROM t",
    "DELETE FROM t",
    "SELECT * FROM t",
];

/// Statements of all kinds. The rows of w stand eight to a page at first.
pub const MANY: [&str; 67] = [
    "CREATE TABLE t(a INT, b TEXT)",
    "CREATE TABLE u(c INT, d INT)",
    "INSERT INTO t VALUES (1,'one'),(2,'two'),(3,'three'),(2,'zwei'),(-5,'')",
    "INSERT INTO u VALUES (1,10),(2,20),(2,21),(4,40)",
    "CREATE INDEX by_a ON t(a)",
    "SELECT * FROM t",
    "SELECT * FROM t, u",
    "SELECT b, d FROM t, u WHERE a = c",
    "SELECT t.b, u.d FROM u, t WHERE t.a = u.c AND NOT u.d < 20 ORDER BY d DESC, b",
    "SELECT a, COUNT(*) AS n FROM t GROUP BY a ORDER BY n DESC, a",
    "SELECT a, MIN(b), MAX(b) FROM t GROUP BY a",
    "SELECT c, SUM(d) AS s FROM u, t WHERE a = c GROUP BY c ORDER BY s DESC LIMIT 1",
    "SELECT COUNT(*), SUM(a), MIN(a), MAX(a) FROM t",
    "SELECT COUNT(b), SUM(a * a - 1) FROM t WHERE a > 1",
    "SELECT SUM(a) FROM t WHERE a > 100",
    "SELECT MIN(a) FROM t WHERE a > 100",
    "SELECT DISTINCT a FROM t",
    "SELECT DISTINCT a + 1 AS a FROM t ORDER BY a LIMIT 2",
    "SELECT b FROM t ORDER BY a DESC, b LIMIT 3",
    "SELECT b FROM t LIMIT 0",
    "SELECT AS OF 7 CURRENT_SNAPSHOT(), a FROM t WHERE a < CURRENT_SNAPSHOT()",
    "SELECT AS OF 7 COUNT(*) FROM t, u WHERE a = c",
    "SELECT CURRENT_SNAPSHOT() FROM t",
    "UPDATE t SET a = a + 10, b = 'ten' WHERE a = 2",
    "SELECT * FROM t",
    "UPDATE t SET a = a + 9223372036854775807",
    "SELECT * FROM t WHERE b = 'ten' OR b = ''",
    "DELETE FROM t WHERE a = 3",
    "INSERT INTO t VALUES (3,'three again')",
    "SELECT b FROM t",
    "DELETE FROM t WHERE a > 1000",
    "UPDATE t SET a = 0 WHERE a > 1000",
    "CREATE TABLE w(k INT, p TEXT)",
    "CREATE INDEX by_p ON w(p)",
    "INSERT INTO w VALUES (1,'~'),(2,'~'),(3,'~'),(4,'~'),(5,'~'),(6,'~'),(7,'~'),(8,'~'),(9,'~')",
    "INSERT INTO w VALUES (10,'~'),(11,'~'),(12,'~'),(13,'~'),(14,'~'),(15,'~'),(16,'~'),(17,'~')",
    "INSERT INTO w VALUES (18,'~'),(19,'~'),(20,'~'),(21,'~'),(22,'~'),(23,'~'),(24,'~'),(25,'~')",
    "UPDATE w SET p = '~~' WHERE k < 4",
    "SELECT k FROM w",
    "UPDATE w SET p = '' WHERE k > 20",
    "SELECT * FROM w WHERE k < 6 OR k > 23",
    "DELETE FROM w WHERE k > 8 AND k < 17",
    "SELECT k FROM w",
    "INSERT INTO w VALUES (27,'~~'),(28,'~~'),(29,'~~'),(30,'~~'),(31,'~~')",
    "SELECT k, p FROM w ORDER BY k DESC",
    "DELETE FROM w",
    "SELECT COUNT(*), SUM(k) FROM w",
    "INSERT INTO w VALUES (1,'new')",
    "SELECT k, a, b FROM w, t WHERE k = a",
    "CREATE TABLE w(k INT)",
    "CREATE TABLE v(k INT, k TEXT)",
    "CREATE TABLE by_a(k INT)",
    "CREATE INDEX by_p ON t(b)",
    "CREATE INDEX u ON t(b)",
    "CREATE INDEX by_z ON t(z)",
    "CREATE INDEX by_z ON nothing(a)",
    "INSERT INTO t VALUES (1)",
    "INSERT INTO t VALUES (1,'x'),('x',1)",
    "SELECT a FROM t, t",
    "SELECT x.a FROM t",
    "SELECT a + b FROM t",
    "SELECT b, COUNT(*) FROM t",
    "SELECT COUNT(*) FROM t ORDER BY z",
    "UPDATE t SET a = 1, a = 2",
    "UPDATE t SET c = 1",
    "DELETE FROM nothing",
    "SELECT * FROM t WHERE a = 'x'",
];

/// A table of sixteen columns, with names of thirty-two bytes.
pub const WIDE: [&str; 4] = [
    "CREATE TABLE #t(#a INT, #b INT, #c INT, #d INT, #e INT, #f INT, #g INT, #h INT, #i INT, #j INT, #k INT, #l INT, #m INT, #n INT, #o INT, #p TEXT)",
    "INSERT INTO #t VALUES (1,2,3,4,5,6,7,8,9,10,11,12,13,14,15,'sixteen'),(15,14,13,12,11,10,9,8,7,6,5,4,3,2,1,'')",
    "UPDATE #t SET #a = #a * 100, #p = 'last' WHERE #o = 15",
    "SELECT #a, #p FROM #t",
];

/// A table that gets ten thousand rows.
pub const BIG: [&str; 1] = ["CREATE TABLE big(k INT, g INT, p TEXT)"];

/// One whose rows are pairs of numbers.
pub const PAIRS: [&str; 1] = ["CREATE TABLE pairs(k INT, v INT)"];

/// Statements over the pairs whose costs are compared: a filter, a sum, a grouping, and an UPDATE of one row in a
/// hundred.
pub const COMPARED: [&str; 4] = [
    "SELECT v FROM pairs WHERE k = 3 AND v < 500",
    "SELECT SUM(v) FROM pairs",
    "SELECT k, COUNT(*), SUM(v) FROM pairs GROUP BY k ORDER BY k LIMIT 3",
    "UPDATE pairs SET v = v + 1 WHERE k = 3",
];

/// Indexes over its rows, which stand: one whose entries have two values, and one whose entries differ.
pub const INDEXES: [&str; 2] = ["CREATE INDEX by_g ON big(g)", "CREATE INDEX by_k ON big(k)"];

/// Selects over them that read few pages, by the index whose column is equal to a literal, or that is the only one with
/// bounds.
pub const LOOK_UPS: [&str; 6] = [
    "SELECT p FROM big WHERE k = 5000",
    "SELECT p FROM big WHERE 9999 = k AND g > -1",
    "SELECT k FROM big WHERE k >= 4200 AND k < 4210",
    "SELECT k FROM big WHERE 3 > k AND (g = 0 OR g = 1)",
    "SELECT k FROM big WHERE k = 12345",
    "SELECT k FROM big WHERE k > 5 AND k < 3",
];

/// Selects over them that read more: all rows, or those of one of two values.
pub const WALKS: [&str; 3] = [
    "SELECT COUNT(*) FROM big WHERE k = 5000 OR k = 5001",
    "SELECT COUNT(*) FROM big WHERE NOT k > 5000",
    "SELECT COUNT(*) FROM big WHERE g = 1",
];

/// The statements over ten thousand rows, behind those that insert them.
pub const LARGE: [&str; 17] = [
    "UPDATE big SET g = 2 WHERE k >= 300 AND k < 400",
    "SELECT COUNT(*), MIN(k), MAX(k) FROM big WHERE g = 2",
    "SELECT COUNT(*), SUM(g) FROM big WHERE k >= 250 AND k < 450",
    "UPDATE big SET g = g - g WHERE k < 0",
    "DELETE FROM big WHERE k > 9899",
    "SELECT COUNT(*), SUM(k) FROM big WHERE 9000 < k",
    "INSERT INTO big VALUES (9900,0,'back'),(-1,1,'below')",
    "SELECT k, p FROM big WHERE 9900 <= k OR k < 0",
    "SELECT COUNT(*), SUM(k), MIN(k), MAX(k) FROM big",
    "UPDATE big SET k = k + 10000",
    "SELECT SUM(k) FROM big",
    "UPDATE big SET p = 'letters that do not fit in the page where the row stood'",
    "SELECT g, COUNT(*), SUM(k) FROM big GROUP BY g",
    "DELETE FROM big WHERE g = 0",
    "SELECT COUNT(*), SUM(k) FROM big",
    "SELECT k, p FROM big WHERE k > 19896",
    "SELECT COUNT(*) FROM big WHERE k >= 9999 AND k <= 10001",
];

/// An index over texts of up to two hundred bytes, many of them equal.
pub const TEXTS: [&str; 14] = [
    "CREATE TABLE t(k INT, p TEXT)",
    "INSERT INTO t VALUES (1,'~~'),(2,'~~'),(3,'^^'),(4,''),(5,'~~'),(6,'a'),(7,'^^'),(8,'~~')",
    "CREATE INDEX by_p ON t(p)",
    "INSERT INTO t VALUES (11,'~~'),(12,'~~'),(13,'^^'),(14,''),(15,'~~'),(16,'a'),(17,'^^'),(18,'~~')",
    "INSERT INTO t VALUES (21,'~~'),(22,'~~'),(23,'^^'),(24,''),(25,'~~'),(26,'a'),(27,'^^'),(28,'~~')",
    "SELECT k FROM t WHERE p = '~~'",
    "SELECT k FROM t WHERE p > '~~'",
    "SELECT k FROM t WHERE '^^' <= p AND NOT k = 3",
    "SELECT k FROM t WHERE p < 'b' AND t.k > 4",
    "SELECT k FROM t WHERE p = 'a' OR k = 1",
    "UPDATE t SET p = '^^' WHERE p = '~~' AND k > 10",
    "SELECT COUNT(*), MIN(k), SUM(k) FROM t WHERE p >= '^^'",
    "DELETE FROM t WHERE p > 'a' AND p <= '~~'",
    "SELECT k FROM t",
];

/// A table of which page 2 holds five rows and page 3 one.
pub const TWO_PAGES: [&str; 2] = [
    "CREATE TABLE t(k INT, p TEXT)",
    "INSERT INTO t VALUES (1,'~~'),(2,'~~'),(3,'~~'),(4,''),(5,'~~'),(6,'~~')",
];

/// A statement of each kind over that table, each but the index and the select on two pages or more.
pub const KINDS: [&str; 6] = [
    "CREATE TABLE u(x INT)",
    "CREATE INDEX i ON t(p)",
    "INSERT INTO t VALUES (7,'~~'),(8,'~~'),(9,'~~'),(10,'~~')",
    "UPDATE t SET p = '~~' WHERE k = 4",
    "DELETE FROM t WHERE k = 6",
    "SELECT SUM(k) FROM t",
];

/// An index over that table, whose entries stand on one page.
pub const KEY: &str = "CREATE INDEX by_k ON t(k)";

/// A statement of each kind over that table with that index.
pub const KEYED: [&str; 4] = [
    "INSERT INTO t VALUES (7,'~~')",
    "UPDATE t SET k = 70 WHERE k = 6",
    "DELETE FROM t WHERE k > 5",
    "SELECT SUM(k) FROM t WHERE k >= 4",
];
