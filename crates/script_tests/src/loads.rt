//! What no clause says: that scripts of a load are made, whole and in bounds, the numbers of a seed by hand.

ghost use Rattle.std.specs.Prelude.{◌≤◌};

use std::alloc::{AllocError, Global};
use std::test::Fail;
use workload::script_of;

const MAKING: &str = "PHASE
SESSION s
CREATE TABLE t0(a INT, b INT)
INSERT INTO t0 VALUES (0,0),(1,0),(2,0),(3,0),(4,0),(5,0),(6,0),(7,0),(8,0),(9,0),\
(10,0),(11,0),(12,0),(13,0),(14,0),(15,0),(16,0),(17,0),(18,0),(19,0)
CREATE TABLE t1(a INT, b INT)
INSERT INTO t1 VALUES (0,0),(1,0),(2,0),(3,0),(4,0),(5,0),(6,0),(7,0),(8,0),(9,0),\
(10,0),(11,0),(12,0),(13,0),(14,0),(15,0),(16,0),(17,0),(18,0),(19,0)
CREATE TABLE t2(a INT, b INT)
INSERT INTO t2 VALUES (0,0),(1,0),(2,0),(3,0),(4,0),(5,0),(6,0),(7,0),(8,0),(9,0),\
(10,0),(11,0),(12,0),(13,0),(14,0),(15,0),(16,0),(17,0),(18,0),(19,0)
CREATE TABLE t3(a INT, b INT)
INSERT INTO t3 VALUES (0,0),(1,0),(2,0),(3,0),(4,0),(5,0),(6,0),(7,0),(8,0),(9,0),\
(10,0),(11,0),(12,0),(13,0),(14,0),(15,0),(16,0),(17,0),(18,0),(19,0)
COMMIT WITH SNAPSHOT
";

const ROUND: &str = "PHASE
SESSION s0
UPDATE t0 SET b = b + 63 WHERE a = 9
COMMIT
SESSION s1
UPDATE t1 SET b = b + 29 WHERE a = 5
COMMIT
SESSION s2
UPDATE t2 SET b = b + 70 WHERE a = 3
COMMIT
SESSION s3
UPDATE t3 SET b = b + 78 WHERE a = 3
COMMIT
PHASE
SESSION s
COMMIT WITH SNAPSHOT
";

const ASKING: &str = "PHASE
SESSION s
AggregateDataInVariable('SELECT snap_id FROM SnapIds','SELECT SUM(b) FROM t0','rql_v','SUM')
SELECT value FROM rql_v
SELECT SUM(b) FROM t0
SELECT SUM(b) FROM t1
SELECT SUM(b) FROM t2
SELECT SUM(b) FROM t3
COMMIT
";

// Whether the script is made of these parts.
fn is_made_of(alloc: Global, rounds: u32, parts: &[&str]) -> Result<bool, AllocError> {
    let script = script_of(alloc, 1, rounds)?;
    let mut rest = script.as_slice();
    for part in parts {
        match rest.strip_prefix(part.as_bytes()) {
            Some(behind) => rest = behind,
            None => return Ok(false),
        }
    }
    Ok(rest.is_empty())
}

#[test]
fn scripts_of_no_round_and_of_one(rt: HostRuntime) -> Result<(), Fail> {
    let none = is_made_of(rt.alloc(), 0, &[MAKING, ASKING])?;
    let one = is_made_of(rt.alloc(), 1, &[MAKING, ROUND, ASKING])?;
    assert!(rt; none && one);
    Ok(())
}

// The bytes of a script of 2,000 rounds, if its last phase is right.
fn length_of_most(alloc: Global, seed: u32) -> Result<usize, AllocError>
    requires { seed ≤ 65536 }
{
    let script = script_of(alloc, seed, 2000)?;
    if script.as_slice().ends_with(ASKING.as_bytes()) {
        Ok(script.len())
    } else {
        Ok(0)
    }
}

// The lengths are what a generator in another language makes of the same rules.
#[test]
fn longest_scripts(rt: HostRuntime) -> Result<(), Fail> {
    for (seed, bytes) in [(0, 530213), (1, 530178), (65536, 534993)] {
        assert_eq!(rt; length_of_most(rt.alloc(), seed)?, bytes);
    }
    Ok(())
}
