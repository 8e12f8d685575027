//! Numbers in bytes, pages, and the words of refusals.

use retro_base::{
    Device, Failed, Page, Refusal, Who, get_u16, get_u32, get_u64, put_u16, put_u32, put_u64,
};
use std::alloc::AllocError;
use std::test::Fail;

const REFUSALS: [(Refusal, u8, &str, &str); 26] = [
    (Refusal::OutOfMemory, 1, "OutOfMemory", "out of memory"),
    (
        Refusal::DiskFault {
            device: Device::Log,
            count: 2,
        },
        2,
        "DiskFault",
        "disk fault on log 2",
    ),
    (Refusal::SourceFault, 3, "SourceFault", "source fault"),
    (Refusal::SinkFault, 4, "SinkFault", "sink fault"),
    (
        Refusal::NotAStore {
            device: Device::Log,
            place: 0,
        },
        5,
        "NotAStore",
        "not a store, log at 0",
    ),
    (Refusal::BadWords, 6, "BadWords", "bad words"),
    (
        Refusal::BadScript { line: 7 },
        7,
        "BadScript",
        "bad script at line 7",
    ),
    (
        Refusal::Overlap {
            session: 1,
            item: 2,
        },
        8,
        "Overlap",
        "overlap with session 1, item 2",
    ),
    (
        Refusal::NoSuchSnapshot {
            asked: 9,
            newest: 3,
        },
        9,
        "NoSuchSnapshot",
        "no snapshot 9, newest is 3",
    ),
    (
        Refusal::Dropped {
            asked: 1,
            oldest: 2,
        },
        10,
        "Dropped",
        "snapshot 1 is dropped, oldest is 2",
    ),
    (
        Refusal::Pinned {
            snapshot: 1,
            session: 2,
        },
        11,
        "Pinned",
        "snapshot 1 is pinned by session 2",
    ),
    (
        Refusal::ArchiveFull { needed: 1, room: 0 },
        12,
        "ArchiveFull",
        "archive full, 1 captures needed, room for 0",
    ),
    (
        Refusal::JournalFull {
            lines: 1,
            images: 2,
        },
        13,
        "JournalFull",
        "journal full, 1 lines and 2 images needed",
    ),
    (
        Refusal::PagesFull { pages: 16 },
        14,
        "PagesFull",
        "pages full, the store has 16",
    ),
    (
        Refusal::TooManyPages { needed: 17 },
        15,
        "TooManyPages",
        "too many pages, 17 needed",
    ),
    (
        Refusal::Stopped {
            device: Device::Log,
            count: 1,
        },
        16,
        "Stopped",
        "stopped by a fault on log 1",
    ),
    (
        Refusal::NoRoom { needed: 1, free: 0 },
        17,
        "NoRoom",
        "no room, 1 bytes needed, 0 free",
    ),
    (
        Refusal::SnapshotsFull { retained: 1 },
        18,
        "SnapshotsFull",
        "snapshots full, 1 are retained",
    ),
    (
        Refusal::Syntax { place: 1 },
        19,
        "Syntax",
        "bad syntax at 1",
    ),
    (Refusal::UnknownName, 20, "UnknownName", "unknown name"),
    (Refusal::NameTaken, 21, "NameTaken", "name taken"),
    (Refusal::WrongType, 22, "WrongType", "wrong type"),
    (Refusal::Overflow, 23, "Overflow", "number out of range"),
    (
        Refusal::RowTooLong { bytes: 901 },
        24,
        "RowTooLong",
        "row too long, 901 bytes",
    ),
    (
        Refusal::NotOneValue { snapshot: 1 },
        25,
        "NotOneValue",
        "not one value at snapshot 1",
    ),
    (Refusal::BadSizes, 26, "BadSizes", "bad sizes"),
];

#[test]
fn refusals_have_numbers_names_and_texts(rt: HostRuntime) -> Result<(), Fail> {
    for (refusal, number, name, text) in REFUSALS {
        assert_eq!(rt; refusal.number(), number);
        assert_eq!(rt; refusal.name(), name);
        let shown = format!(in rt.alloc(); "{refusal}")?;
        assert_eq!(rt; shown.as_str(), text);
    }
    assert_eq!(rt; Refusal::from(AllocError), Refusal::OutOfMemory);
    Ok(())
}

#[test]
fn numbers_stand_high_byte_first(rt: HostRuntime) {
    let mut bytes = [9u8; 16];
    put_u16(&mut bytes, 1, 0x1234);
    put_u32(&mut bytes, 3, 0xdead_beef);
    put_u64(&mut bytes, 7, 0x0102_0304_0506_0708);
    let want = [
        9, 0x12, 0x34, 0xde, 0xad, 0xbe, 0xef, 1, 2, 3, 4, 5, 6, 7, 8, 9,
    ];
    assert_eq!(rt; bytes, want);
    assert_eq!(rt; get_u16(&want, 5), 0xbeef);
    assert_eq!(rt; get_u32(&want, 7), 0x0102_0304);
    assert_eq!(rt; get_u64(&want, 8), 0x0203_0405_0607_0809);
}

#[test]
fn pages_hold_their_bytes(rt: HostRuntime) {
    let mut page = Page::zero();
    page.put_bytes(0, b"ab");
    page.put_u16(1020, 258);
    page.put_u32(2, 65536);
    page.put_u64(6, 1);
    let mut want = [0u8; 1024];
    want[0] = 97;
    want[1] = 98;
    want[3] = 1;
    want[13] = 1;
    want[1020] = 1;
    want[1021] = 2;
    assert!(rt; page == Page::of(want));
    assert_eq!(rt; page.bytes().len(), 1024);
}

#[test]
fn shown_in_words(rt: HostRuntime) -> Result<(), Fail> {
    let device = Device::Maplog;
    let refusal = Refusal::DiskFault { device, count: 3 };
    let shown = format!(in rt.alloc(); "{device}: {refusal}")?;
    assert_eq!(rt; shown.as_str(), "maplog: disk fault on maplog 3");
    let who = Who {
        phase: 1,
        session: 2,
        item: 3,
    };
    let shown = format!(in rt.alloc(); "{who:?} {:?}", Failed)?;
    assert_eq!(rt;
        shown.as_str(),
        "Who { phase: 1, session: 2, item: 3 } Failed"
    );
    Ok(())
}

#[test]
fn devices_have_names(rt: HostRuntime) {
    let table = [
        (Device::Log, "log"),
        (Device::Pages, "pages"),
        (Device::Pagelog, "pagelog"),
        (Device::Maplog, "maplog"),
        (Device::Cabinet, "cabinet"),
    ];
    for (device, name) in table {
        assert_eq!(rt; device.name(), name);
    }
}
