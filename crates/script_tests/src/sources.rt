//! Sources read in pieces, and sinks and sources that fail.

use feeds::{MemSink, MemSource, ReadError, Sink, Source, StdSink, StdSource, put_all, read_front};
use retro_base::{Failed, Refusal};
use std::alloc::{AllocError, Global};
use std::io::{self, ErrorKind, Read, Write};
use std::test::Fail;

// 10,000 bytes, so that three takes of up to 4,096 bytes give all of them.
fn long(alloc: Global) -> Result<Vec<u8>, AllocError> {
    (0..10000u32).map(|i| (i % 251) as u8).collect(alloc)
}

#[test]
fn reads_in_pieces_up_to_the_limit(rt: HostRuntime) -> Result<(), Fail> {
    let alloc = rt.alloc();
    let all = long(alloc)?;
    for (limit, want) in [(0, 0), (5000, 5000), (10000, 10000), (10001, 10000)] {
        let mut source = MemSource::new(long(alloc)?, Vec::new(alloc));
        let read = read_front(alloc, &mut source, limit)?;
        assert!(rt; all.as_slice().starts_with(read.as_slice()), "at {limit}");
        assert_eq!(rt; read.len(), want, "at {limit}");
        let rest = read_front(alloc, &mut source, 10000)?;
        assert_eq!(rt; rest.len(), 10000 - want, "at {limit}");
        assert!(rt; all.as_slice().ends_with(rest.as_slice()), "at {limit}");
        assert_eq!(rt; source.faults(), 0);
    }
    Ok(())
}

#[test]
fn failed_takes_take_nothing(rt: HostRuntime) -> Result<(), Fail> {
    let alloc = rt.alloc();
    let all = long(alloc)?;
    for (failing, rest) in [(1, 10000), (3, 1808), (4, 0)] {
        let mut source = MemSource::new(long(alloc)?, vec![in alloc; failing]?);
        let read = read_front(alloc, &mut source, 20000);
        assert_eq!(rt; read.err(), Some(ReadError::Source), "at {failing}");
        assert_eq!(rt; source.faults(), 1);
        let read = read_front(alloc, &mut source, 20000)?;
        assert_eq!(rt; read.len(), rest, "at {failing}");
        assert!(rt; all.as_slice().ends_with(read.as_slice()), "at {failing}");
    }
    assert_eq!(rt; Refusal::from(ReadError::Source), Refusal::SourceFault);
    assert_eq!(rt; Refusal::from(ReadError::Memory), Refusal::OutOfMemory);
    let shown = format!(in alloc; "{}, {}", ReadError::Memory, ReadError::Source)?;
    assert_eq!(rt; shown.as_str(), "out of memory, source fault");
    Ok(())
}

#[test]
fn failed_puts_add_nothing(rt: HostRuntime) -> Result<(), Fail> {
    let alloc = rt.alloc();
    for (failing, want) in [(1, b"cdefgh"), (3, b"abcdgh"), (4, b"abcdef")] {
        let mut sink = MemSink::new(alloc, vec![in alloc; failing]?);
        for (call, bytes) in [(1, b"ab"), (2, b"cd"), (3, b"ef"), (4, b"gh")] {
            let put = put_all(&mut sink, bytes);
            assert_eq!(rt; put == Err(Failed), call == failing, "at {failing}");
        }
        assert_eq!(rt; sink.bytes(), want.as_slice(), "at {failing}");
        assert_eq!(rt; sink.faults(), 1);
    }
    Ok(())
}

#[test]
fn a_sink_holds_all_that_is_put(rt: HostRuntime) -> Result<(), Fail> {
    let alloc = rt.alloc();
    let all = long(alloc)?;
    let mut sink = MemSink::new(alloc, Vec::new(alloc));
    let mut want = Vec::new(alloc);
    for _ in 0..3 {
        assert_eq!(rt; put_all(&mut sink, &all), Ok(()));
        want.extend_from_slice(&all)?;
    }
    assert_eq!(rt; sink.bytes().len(), 30_000);
    assert!(rt; sink.bytes() == want.as_slice());
    Ok(())
}

#[test]
fn std_reader_is_a_source(rt: HostRuntime) -> Result<(), Fail> {
    let alloc = rt.alloc();
    let mut source = StdSource::new(b"hello".as_slice());
    assert_eq!(rt;
        read_front(alloc, &mut source, 4)?.as_slice(),
        b"hell".as_slice()
    );
    assert_eq!(rt;
        read_front(alloc, &mut source, 4)?.as_slice(),
        b"o".as_slice()
    );
    assert_eq!(rt; source.faults(), 0);
    let mut source = StdSource::new(Interrupted { reads: 0 });
    assert_eq!(rt;
        read_front(alloc, &mut source, 4).err(),
        Some(ReadError::Source)
    );
    assert_eq!(rt; source.faults(), 1);
    assert_eq!(rt; read_front(alloc, &mut source, 4)?.len(), 0);
    assert_eq!(rt; source.faults(), 1);
    Ok(())
}

#[test]
fn std_writer_is_a_sink(rt: HostRuntime) -> Result<(), Fail> {
    let alloc = rt.alloc();
    let mut held = Vec::new(alloc);
    let mut sink = StdSink::new(&mut held);
    assert_eq!(rt; put_all(&mut sink, b"hello"), Ok(()));
    assert_eq!(rt; sink.faults(), 0);
    assert_eq!(rt; held.as_slice(), b"hello".as_slice());

    let mut room = [0u8; 3];
    let mut sink = StdSink::new(room.as_mut_slice());
    assert_eq!(rt; put_all(&mut sink, b"hello"), Err(Failed));
    assert_eq!(rt; sink.faults(), 1);
    assert_eq!(rt; room.as_slice(), b"hel".as_slice());

    let mut pipe = Pipe {
        written: 0,
        flushed: 0,
    };
    let mut sink = StdSink::new(&mut pipe);
    assert_eq!(rt; put_all(&mut sink, b"hello"), Ok(()));
    assert_eq!(rt; put_all(&mut sink, b"world"), Err(Failed));
    assert_eq!(rt; sink.faults(), 1);
    assert_eq!(rt; pipe.flushed, 7);
    Ok(())
}

// Is interrupted once, and then at its end.
#[derive(Drop)]
struct Interrupted {
    reads: u8,
}

impl Read for Interrupted {
    fn read(&mut self, _buf: &mut [u8]) -> io::Result<usize> {
        self.reads = self.reads.saturating_add(1);
        if self.reads == 1 {
            return Err(io::Error::from(ErrorKind::Interrupted));
        }
        Ok(0)
    }
}

// Writes two bytes at a time, and flushes no more than eight in all.
#[derive(Drop)]
struct Pipe {
    written: usize,
    flushed: usize,
}

impl Write for Pipe {
    fn write(&mut self, buf: &[u8]) -> io::Result<usize> {
        let taken = buf.len().min(2);
        self.written = self.written.saturating_add(taken);
        Ok(taken)
    }

    fn flush(&mut self) -> io::Result<()> {
        if self.written > 8 {
            return Err(io::Error::from(ErrorKind::BrokenPipe));
        }
        self.flushed = self.written;
        Ok(())
    }
}
