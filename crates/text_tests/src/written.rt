//! What no clause says: the written text of values, by hand, and that calls succeed.

use std::test::Fail;
use values::{Duplicate, Row, Seq, Value, field};

#[test]
fn integers_are_written_in_decimal(rt: HostRuntime) -> Result<(), Fail> {
    for (number, want) in [
        (0, b"0".as_slice()),
        (7, b"7"),
        (-1, b"-1"),
        (9223372036854775807, b"9223372036854775807"),
        (-9223372036854775808, b"-9223372036854775808"),
    ] {
        let mut out = b"x ".to_vec(rt.alloc())?;
        field(rt.alloc(), &Value::Int(number), &mut out)?;
        assert_eq!(rt; &out.as_slice()[..2], b"x ".as_slice());
        assert_eq!(rt; &out.as_slice()[2..], want, "{number}");
    }
    Ok(())
}

#[test]
fn a_copied_row_outlives_a_change_of_its_source(rt: HostRuntime) -> Result<(), Fail> {
    let mut row: Row = Seq::new(rt.alloc());
    row.push(Value::Int(4))?;
    row.push(Value::Int(-3))?;
    let copy = row.copy(rt.alloc())?;
    row.truncate(1);
    assert_eq!(rt; row.len(), 1);
    let mut out = Vec::new(rt.alloc());
    for value in copy.as_slice() {
        field(rt.alloc(), value, &mut out)?;
    }
    assert_eq!(rt; out.as_slice(), b"4-3".as_slice());
    Ok(())
}
