//! Good scripts, the first bad line of others, and scripts at the limits.

use retro_base::Refusal;
use script::{End, Item, Phase, Reading, Session, Single, Transaction, read};
use sql_tree::Statement;
use std::alloc::{AllocError, Global};
use std::test::Fail;

/// What `read` answers, in short.
fn answer(alloc: Global, bytes: &[u8]) -> Result<String, AllocError> {
    let mut text = String::new(alloc);
    match read(alloc, bytes) {
        Ok(script) => {
            for phase in script.phases.as_slice() {
                show_phase(&mut text, phase)?;
            }
        }
        Err(Refusal::BadScript { line }) => write!(text, "bad {line}")?,
        Err(_) => text.push_str("other")?,
    }
    Ok(text)
}

fn show_phase(text: &mut String, phase: &Phase) -> Result<(), AllocError> {
    text.push_str("phase")?;
    for session in phase.sessions.as_slice() {
        show_session(text, session)?;
    }
    Ok(())
}

fn show_session(text: &mut String, session: &Session) -> Result<(), AllocError> {
    text.push_str("; session ")?;
    push_bytes(text, session.name.bytes())?;
    for item in session.items.as_slice() {
        match item {
            Item::Transaction(transaction) => show_transaction(text, transaction)?,
            Item::Single(single) => show_single(text, single)?,
        }
    }
    Ok(())
}

fn show_single(text: &mut String, single: &Single) -> Result<(), AllocError> {
    match single {
        Single::AsOf(query) => {
            let snapshot = query.snapshot;
            write!(text, "; as of {snapshot}")
        }
        Single::DropBelow(below) => write!(text, "; drop {below}"),
        Single::SnapIds(_) => text.push_str("; snapshots"),
        Single::Results(_) => text.push_str("; results"),
        Single::Call { call: _, places } => {
            text.push_str("; call")?;
            for place in places.as_slice() {
                write!(text, " {place}")?;
            }
            Ok(())
        }
        Single::Syntax { place } => write!(text, "; single, syntax {place}"),
    }
}

fn show_transaction(text: &mut String, transaction: &Transaction) -> Result<(), AllocError> {
    for reading in transaction.statements.as_slice() {
        match reading {
            Reading::Read(Statement::CreateTable(_)) => text.push_str("; create")?,
            Reading::Read(Statement::Insert(_)) => text.push_str("; insert")?,
            Reading::Read(Statement::Select(_)) => text.push_str("; select")?,
            Reading::Read(_) => text.push_str("; other")?,
            Reading::Syntax { place } => write!(text, "; syntax {place}")?,
        }
    }
    match &transaction.end {
        End::Commit(None) => text.push_str("; commit"),
        End::Commit(Some(label)) => {
            text.push_str("; commit as ")?;
            push_bytes(text, label.bytes())
        }
        End::Rollback => text.push_str("; rollback"),
    }
}

fn push_bytes(text: &mut String, bytes: &[u8]) -> Result<(), AllocError> {
    for byte in bytes {
        text.push(char::from(*byte))?;
    }
    Ok(())
}

// Scripts, and what is read of them.
const GOOD_SCRIPTS: [(&[u8], &str); 15] = [
    (b"", ""),
    (b"\n;\n \t;\t\n# x\n-- y\n", ""),
    (b"phase", "phase"),
    (
        b"Session abcdefghijklmno1\r\n",
        "phase; session abcdefghijklmno1",
    ),
    (
        b"PHASE\nSESSION a\nCREATE TABLE t(k INT, v TEXT)\nINSERT INTO t VALUES (1, 'x');\n\
          COMMIT WITH SNAPSHOT 'one'\nSELECT AS OF 1 * FROM t\n",
        "phase; session a; create; insert; commit as one; as of 1",
    ),
    (
        b"PHASE\r\nSESSION\ta ;\r\n\tselect * from t ; \r\n#\r\ncommit with snapshot\r\nCOMMIT",
        "phase; session a; select; commit as ; commit",
    ),
    (
        b"SESSION a\nhello\nSELECT\nSESSIONS\nPHASE x\n\x00\xff\nSELECT * FROM t;;\nCOMMIT\nSELECT AS OF x * FROM t\n",
        "phase; session a; syntax 0; syntax 6; syntax 0; syntax 0; syntax 0; syntax 15; commit; single, syntax 13",
    ),
    (
        b"SESSION a\nSELECT * FROM snapids\nSELECT * FROM RQL_a\nSELECT AS\nDROP t\nCOMMIT\n",
        "phase; session a; select; select; syntax 9; syntax 5; commit",
    ),
    (
        b"SESSION a\nROLLBACK\nSELECT * FROM t\nrollback ;\nCOMMIT",
        "phase; session a; rollback; select; rollback; commit",
    ),
    (
        b"SESSION b\nCOMMIT\nSESSION a\nPHASE\nPHASE\nSESSION a\nROLLBACK\nSESSION b\nphase\n",
        "phase; session b; commit; session aphasephase; session a; rollback; session bphase",
    ),
    (
        b"SESSION a\nDROP SNAPSHOTS BELOW 2\ndrop snapshots below\nDROP SNAPSHOTS\nDROP SNAPSHOTS BELOW 02;\n",
        "phase; session a; drop 2; single, syntax 20; single, syntax 14; drop 2",
    ),
    (
        b"SESSION a\nSELECT snap_id FROM SnapIds\nSELECT * FROM rql_c, t\nSELECT FROM SnapIds\n\
          SELECT from rql_ FROM t !\nSELECT a FROM rql_ x",
        "phase; session a; snapshots; results; single, syntax 7; single, syntax 24; single, syntax 19",
    ),
    (
        b"SESSION a\nSELECT * FROM rql_abcdefghijklmnopqrstuvwxyzabcdefghij\nCOMMIT\n\
          SELECT * FROM rql_abcdefghijklmnopqrstuvwxyzabc\nROLLBACK",
        "phase; session a; single, syntax 14; commit; single, syntax 14; rollback",
    ),
    (
        b"SESSION a\nSELECT * FROM arql_abcdefghijklmnopqrstuvwxyzabcdefghij\nSELECT * FROM t\n\
          SELECT * FROM RQL_abcdefghijklmnopqrstuvwxyzabcdefghij\nCOMMIT",
        "phase; session a; syntax 14; select; syntax 14; commit",
    ),
    (
        b"SESSION a\nCollateData ( 'a' , 'it''s' , '' )\naggregatedatainvariable('a','b','c','d')\n\
          CollateData('a','b')\nCollateData('a','b','\xff')\nAGGREGATEDATAINTABLE 'x\nCollateDataIntoIntervals !\n\
          SELECT 'CollateData' FROM t\nCOMMIT",
        "phase; session a; call 14 20 30; call 24 28 32 36; single, syntax 19; single, syntax 21; single, syntax 23; \
         single, syntax 25; select; commit",
    ),
];

#[test]
fn good_scripts(rt: HostRuntime) -> Result<(), Fail> {
    for &(script, want) in &GOOD_SCRIPTS {
        let got = answer(rt.alloc(), script)?;
        assert_eq!(rt; got.as_str(), want);
    }
    Ok(())
}

#[test]
fn bad_lines(rt: HostRuntime) -> Result<(), Fail> {
    for (script, want) in [
        (b"\x00\xff\n".as_slice(), "bad 1"),
        (b"COMMIT\n", "bad 1"),
        (b"PHASE\nSELECT AS OF 1 * FROM t\n", "bad 2"),
        (b"SESSION\n", "bad 1"),
        (b"SESSION abcdefghijklmnopq\n", "bad 1"),
        (b"SESSION copier\n", "bad 1"),
        (b"SESSION flusher\n", "bad 1"),
        (b"SESSION A\n", "bad 1"),
        (b"SESSION a b\n", "bad 1"),
        (b"SESSION a\nROLLBACK\nCOMMIT x\n", "bad 3"),
        (b"SESSION a\nROLLBACK WORK\n", "bad 2"),
        (b"SESSION a\nSESSION b\nSESSION a\n", "bad 3"),
        (b"SESSION a\nPHASE\nCOMMIT\n", "bad 3"),
        (b"PHASE\nDROP SNAPSHOTS BELOW 1\n", "bad 2"),
        (b"CollateData('a','b','c')\n", "bad 1"),
        (b"SESSION a\nx\nDROP SNAPSHOTS BELOW 1\n", "bad 3"),
        (b"SESSION a\nx\nSELECT * FROM SnapIds\n", "bad 3"),
        (b"SESSION a\nx\nSELECT * FROM rql_c\n", "bad 3"),
        (b"SESSION a\nx\nCollateData\n", "bad 3"),
        (b"SESSION a\nPHASE\nSESSION b\nx\n", "bad 5"),
        (b"SESSION a\n\nCOMMIT x\n", "bad 3"),
        (b"SESSION a\nCOMMIT\r", "bad 2"),
        (b"SESSION a\nCOMMIT\r\r\n", "bad 2"),
        (
            b"SESSION a\nSELECT * FROM t\nSELECT AS OF 1 * FROM t\n",
            "bad 3",
        ),
        (b"SESSION a\nSELECT * FROM t\nPHASE\n", "bad 3"),
        (b"SESSION a\nSELECT * FROM t\nSESSION b\n", "bad 3"),
        (b"SESSION a\nSELECT * FROM t\n", "bad 3"),
        (b"SESSION a\nSELECT * FROM t", "bad 3"),
        (b"SESSION a\nSELECT * FROM t\n\n#", "bad 5"),
    ] {
        let got = answer(rt.alloc(), script)?;
        assert_eq!(rt; got.as_str(), want);
    }
    Ok(())
}

/// So many comments of 4,096 bytes with their ends, and then these bytes.
fn comments(alloc: Global, count: usize, last: &[u8]) -> Result<Vec<u8>, AllocError> {
    let mut bytes = Vec::new(alloc);
    for _ in 0..count {
        bytes.extend_from_slice(&[b'#'; 4095])?;
        bytes.push(b'\n')?;
    }
    bytes.extend_from_slice(last)?;
    Ok(bytes)
}

#[test]
fn long_lines_and_long_scripts(rt: HostRuntime) -> Result<(), Fail> {
    for (count, last, want) in [
        (0, [b'#'; 4096].as_slice(), ""),
        (1, [b'#'; 4097].as_slice(), "bad 2"),
        (1024, b"".as_slice(), ""),
        (1024, b"\n".as_slice(), "bad 1025"),
        (1024, b"PHASE\nPHASE\n".as_slice(), "bad 1025"),
        (1023, [b'#'; 4096].as_slice(), ""),
    ] {
        let script = comments(rt.alloc(), count, last)?;
        let got = answer(rt.alloc(), script.as_slice())?;
        assert_eq!(rt; got.as_str(), want, "{count} comments before");
    }
    let mut script = comments(rt.alloc(), 1023, [b'#'; 4096].as_slice())?;
    script.push(b'\n')?;
    assert_eq!(rt; answer(rt.alloc(), script.as_slice())?.as_str(), "bad 1024");
    Ok(())
}

/// A first line, and then this line so often.
fn repeated(alloc: Global, first: &[u8], line: &[u8], count: usize) -> Result<Vec<u8>, AllocError> {
    let mut bytes = first.to_vec(alloc)?;
    for _ in 0..count {
        bytes.extend_from_slice(line)?;
    }
    Ok(bytes)
}

/// The number of phases, of sessions and of items of a script, or its first bad line.
fn counts(alloc: Global, bytes: &[u8]) -> Result<(usize, usize, usize), u64> {
    match read(alloc, bytes) {
        Ok(script) => {
            let mut sessions = 0;
            let mut items = 0;
            for phase in script.phases.as_slice() {
                for session in phase.sessions.as_slice() {
                    sessions = usize::max(sessions, phase.sessions.len());
                    items = usize::max(items, session.items.len());
                }
            }
            Ok((script.phases.len(), sessions, items))
        }
        Err(Refusal::BadScript { line }) => Err(line),
        Err(_) => Err(0),
    }
}

#[test]
fn the_most_phases(rt: HostRuntime) -> Result<(), Fail> {
    let mut script = repeated(rt.alloc(), b"SESSION a\n", b"PHASE\n", 4095)?;
    assert_eq!(rt; counts(rt.alloc(), script.as_slice()), Ok((4096, 1, 0)));
    script.extend_from_slice(b"PHASE\n")?;
    assert_eq!(rt; counts(rt.alloc(), script.as_slice()), Err(4097));
    Ok(())
}

#[test]
fn the_most_items(rt: HostRuntime) -> Result<(), Fail> {
    let mut script = repeated(
        rt.alloc(),
        b"SESSION a\nx\nCOMMIT\nSESSION b\n",
        b"ROLLBACK\n",
        65535,
    )?;
    script.extend_from_slice(b"x\nCOMMIT\n")?;
    assert_eq!(rt; counts(rt.alloc(), script.as_slice()), Err(65540));
    Ok(())
}

#[test]
fn the_most_sessions_of_a_phase(rt: HostRuntime) -> Result<(), Fail> {
    let sixteen =
        b"SESSION 0\nSESSION 1\nSESSION 2\nSESSION 3\nSESSION 4\nSESSION 5\nSESSION 6\nSESSION 7\nSESSION 8\n\
          SESSION 9\nSESSION a\nSESSION b\nSESSION c\nSESSION d\nSESSION e\nSESSION f\n"
            .as_slice();
    let mut script = sixteen.to_vec(rt.alloc())?;
    script.extend_from_slice(b"PHASE\n")?;
    script.extend_from_slice(sixteen)?;
    assert_eq!(rt; counts(rt.alloc(), script.as_slice()), Ok((2, 16, 0)));
    script.extend_from_slice(b"SESSION g\n")?;
    assert_eq!(rt; counts(rt.alloc(), script.as_slice()), Err(34));
    Ok(())
}
