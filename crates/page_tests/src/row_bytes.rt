//! What no clause says: the bytes of rows by hand, and that calls succeed.

ghost use Rattle.std.specs.Prelude.{◌≤◌};

use crate::support::{encoding, five_texts, letters, sixteen_values};
use retro_base::Refusal;
use row_codec::decode;
use std::alloc::{AllocError, Global};
use std::test::Fail;
use values::{Row, Seq, Value};

// The row of these bytes.
fn decoding(alloc: Global, bytes: &[u8]) -> Result<Option<(u64, Row)>, Refusal> {
    decode(alloc, bytes)
}

// Whether the bytes are a row's.
fn is_row(alloc: Global, bytes: &[u8]) -> Result<bool, Refusal> {
    Ok(decoding(alloc, bytes)?.is_some())
}

// The row (1,'x').
fn one_x(alloc: Global) -> Result<Row, AllocError> {
    let mut row = Vec::new(alloc);
    row.push(Value::Int(1))?;
    row.push(letters(alloc, 1)?)?;
    Ok(Seq::from(row))
}

const ONE_X: [u8; 21] = [
    0, 0, 0, 0, 0, 0, 0, 0, 2, 1, 0, 0, 0, 0, 0, 0, 0, 1, 2, 1, 0x78,
];

// The same under the last row number.
const LAST_ONE_X: [u8; 21] = [
    255, 255, 255, 255, 255, 255, 255, 255, 2, 1, 0, 0, 0, 0, 0, 0, 0, 1, 2, 1, 0x78,
];

#[test]
fn a_row_in_bytes(rt: HostRuntime) -> Result<(), Fail> {
    let alloc = rt.alloc();
    let bytes = encoding(alloc, 0, &one_x(alloc)?)?;
    let (number, row) = decoding(alloc, &bytes)?.ok_or("no row")?;
    let again = encoding(alloc, u64::MAX, &row)?;
    assert!(rt; (number, row.len()) == (0, 2));
    assert!(rt; [bytes.as_slice(), again.as_slice()] == [ONE_X.as_slice(), LAST_ONE_X.as_slice()]);
    Ok(())
}

// How many bytes the encoding of that row of five texts takes, and whether they are a row's.
fn texts_in_bytes(alloc: Global, last: usize) -> Result<(usize, bool), Refusal>
    requires { last ≤ 200 }
{
    let bytes = encoding(alloc, 7, &five_texts(alloc, last)?)?;
    Ok((bytes.len(), is_row(alloc, &bytes)?))
}

#[test]
fn nine_hundred_bytes_at_most(rt: HostRuntime) -> Result<(), Fail> {
    let alloc = rt.alloc();
    let outcomes = [texts_in_bytes(alloc, 81), texts_in_bytes(alloc, 82)];
    let over = Refusal::RowTooLong { bytes: 901 };
    assert!(rt; outcomes == [Ok((900, true)), Err(over)]);
    Ok(())
}

#[test]
fn sixteen_values_are_read_again(rt: HostRuntime) -> Result<(), Fail> {
    let alloc = rt.alloc();
    let bytes = encoding(alloc, 7, &sixteen_values(alloc, 0)?)?;
    let (number, row) = decoding(alloc, &bytes)?.ok_or("no row")?;
    let again = encoding(alloc, 7, &row)?;
    assert!(rt; (bytes.len(), number, row.len(), again == bytes) == (900, 7, 16, true));
    Ok(())
}

// The bytes of (1,'x') with one of them changed: its place, and its new value.
const CHANGED: [(usize, u8); 9] = [
    (8, 0),
    (8, 1),
    (8, 3),
    (8, 17),
    (9, 3),
    (18, 1),
    (19, 0),
    (19, 2),
    (20, 31),
];

// Whether the bytes of (1,'x') are a row's with that byte at that place.
fn is_row_with(alloc: Global, place: usize, byte: u8) -> Result<bool, Refusal> {
    let mut bytes = ONE_X;
    bytes[place.min(20)] = byte;
    is_row(alloc, &bytes)
}

#[test]
fn other_bytes_are_no_row(rt: HostRuntime) -> Result<(), Fail> {
    let alloc = rt.alloc();
    for (place, byte) in CHANGED {
        assert!(rt; is_row_with(alloc, place, byte) == Ok(false), "{place}");
    }
    let cut = [is_row(alloc, &ONE_X[..8]), is_row(alloc, &ONE_X[..20])];
    assert!(rt; cut == [Ok(false); 2]);
    Ok(())
}
