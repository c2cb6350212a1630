//! What no clause says: runs of several calls, with a fault in mid-stream and what comes after it,
//! and the std adapters over bytes in memory.
use gta_port::{
    LARGEST_LIMIT, MemorySink, MemorySource, ReadEnd, StdSink, StdSource, SteadySink, SteadySource,
    WriteEnd, read_all, write_all_of,
};
use std::alloc::Global;
use std::io;
use std::io::Read;
use std::test::Fail;

type Expected = Result<&'static [u8], ReadEnd>;

fn read_few(alloc: Global, source: &mut MemorySource, limit: u8) -> Result<Vec<u8>, ReadEnd> {
    read_all(alloc, source, usize::from(limit))
}

// The chunk, the calls that fail, the limit, and what the first and the second `read_all` give.
#[test]
fn a_fault_in_mid_stream_and_the_bytes_after_it(rt: HostRuntime) -> Result<(), Fail> {
    let cases: [(usize, &[u64], u8, Expected, Expected); 9] = [
        (1, &[], 8, Ok(b"abcdefgh"), Ok(b"")),
        (3, &[], 9, Ok(b"abcdefgh"), Ok(b"")),
        (9, &[], 8, Ok(b"abcdefgh"), Ok(b"")),
        (9, &[], 7, Err(ReadEnd::TooLong), Ok(b"")),
        (2, &[], 4, Err(ReadEnd::TooLong), Ok(b"fgh")),
        (3, &[1], 8, Err(ReadEnd::ReadFault), Ok(b"abcdefgh")),
        (3, &[7, 2], 8, Err(ReadEnd::ReadFault), Ok(b"defgh")),
        (3, &[4], 8, Err(ReadEnd::ReadFault), Ok(b"")),
        (3, &[5], 8, Ok(b"abcdefgh"), Err(ReadEnd::ReadFault)),
    ];
    for (chunk, listed, limit, first, second) in cases {
        let bytes = Vec::from_slice(rt.alloc(), b"abcdefgh")?;
        let fails = Vec::from_slice(rt.alloc(), listed)?;
        let mut source = MemorySource::new(bytes, chunk, fails);
        for (turn, expected) in [("first", first), ("second", second)] {
            let read = read_few(rt.alloc(), &mut source, limit);
            let bytes = read.as_ref().map(|v| v.as_slice());
            assert_eq!(rt;
                bytes,
                expected.as_ref().map(|v| *v),
                "{turn} at {chunk}, {listed:?}"
            );
        }
    }
    Ok(())
}

// The room, the chunk, the calls that fail, what the first and the second `write_all_of` give, and
// the bytes that went out.
#[test]
fn the_front_that_went_out_before_a_fault(rt: HostRuntime) -> Result<(), Fail> {
    let fault = |gone| Err(WriteEnd::WriteFault { gone });
    let cases: [(usize, usize, &[u64], _, _, &[u8]); 7] = [
        (20, 4, &[], Ok(()), Ok(()), b"answer 7\n.."),
        (20, 4, &[2], fault(4), Ok(()), b"answ.."),
        (20, 4, &[1, 2], fault(0), fault(0), b""),
        (20, 4, &[4], Ok(()), fault(0), b"answer 7\n"),
        (10, 9, &[], Ok(()), fault(1), b"answer 7\n."),
        (5, 3, &[], fault(5), fault(0), b"answe"),
        (0, 1, &[], fault(0), fault(0), b""),
    ];
    for (room, chunk, listed, first, second, bytes) in cases {
        let fails = Vec::from_slice(rt.alloc(), listed)?;
        let mut sink = MemorySink::new(rt.alloc(), room, chunk, fails)?;
        assert_eq!(rt;
            write_all_of(&mut sink, b"answer 7\n"),
            first,
            "first at {room}, {listed:?}"
        );
        assert_eq!(rt;
            write_all_of(&mut sink, b".."),
            second,
            "second at {room}, {listed:?}"
        );
        assert_eq!(rt; sink.bytes(), bytes, "bytes at {room}, {listed:?}");
    }
    Ok(())
}

#[test]
fn steady_ends_and_several_blocks(rt: HostRuntime) -> Result<(), Fail> {
    let text = [b'x'; 10_000];
    let mut source = SteadySource::new(Vec::from_slice(rt.alloc(), &text)?);
    let read = read_all(rt.alloc(), &mut source, LARGEST_LIMIT)
        .ok()
        .ok_or("not read")?;
    assert_eq!(rt; read.as_slice(), text.as_slice());
    let mut sink = SteadySink::new();
    assert_eq!(rt; write_all_of(&mut sink, &read), Ok(()));
    assert_eq!(rt; sink.taken(), 10_000);
    Ok(())
}

/// Gives a few bytes at its first call, and an error from then on.
#[derive(Drop)]
struct CutReader {
    calls: u8,
}

impl Read for CutReader {
    fn read(&mut self, buf: &mut [u8]) -> io::Result<usize> {
        self.calls = self.calls.saturating_add(1);
        if self.calls > 1 || buf.len() < 2 {
            return Err(io::Error::from(io::ErrorKind::TimedOut));
        }
        buf[..2].copy_from_slice(b"ab");
        Ok(2)
    }
}

#[test]
fn std_readers_and_writers(rt: HostRuntime) -> Result<(), Fail> {
    let text: &[u8] = b"one\ntwo\n";
    let mut source = StdSource::new(text);
    let read = read_all(rt.alloc(), &mut source, 8).ok().ok_or("not read")?;
    assert_eq!(rt; read.as_slice(), b"one\ntwo\n".as_slice());
    let mut cut = StdSource::new(CutReader { calls: 0 });
    assert_eq!(rt;
        read_all(rt.alloc(), &mut cut, 8).err(),
        Some(ReadEnd::ReadFault)
    );

    let mut kept = Vec::new(rt.alloc());
    assert_eq!(rt;
        write_all_of(&mut StdSink::new(&mut kept), b"three\n"),
        Ok(())
    );
    assert_eq!(rt; kept.as_slice(), b"three\n".as_slice());
    let mut room = [0u8; 4];
    let full = write_all_of(&mut StdSink::new(&mut room[..]), b"three\n");
    assert_eq!(rt; full, Err(WriteEnd::WriteFault { gone: 4 }));
    assert_eq!(rt; room, *b"thre");
    Ok(())
}
