use super::{
    Got, List, MemSink, MemSource, NoMemory, NullSink, Put, Sink, Source, StdSink, StdSource,
    WriteFault, write_whole,
};
use std::io::{Error, ErrorKind, Read, Result as IoResult, Write};

#[test]
fn a_source_gives_its_bytes_in_pieces_and_fails_on_request(
    rt: HostRuntime,
) -> Result<(), NoMemory> {
    let mut source = MemSource::new(rt.alloc(), b"abcdef", &[2, 3], &[1])?;
    let mut buf = [0; 4];
    assert_eq!(rt; source.read(&mut buf), Got::Bytes(2));
    assert_eq!(rt; buf, *b"ab\0\0");
    assert_eq!(rt; source.read(&mut buf), Got::Failed, "call 1 is to fail");
    assert_eq!(rt;
        source.read(&mut buf),
        Got::Bytes(2),
        "call 2 gives two again"
    );
    assert_eq!(rt; buf, *b"cd\0\0");
    assert_eq!(rt;
        source.read(&mut buf),
        Got::Bytes(2),
        "two are left, though the piece has three"
    );
    assert_eq!(rt; source.read(&mut buf), Got::End);
    assert_eq!(rt; source.read(&mut buf), Got::End);
    Ok(())
}

#[test]
fn a_sink_appends_up_to_its_room(rt: HostRuntime) -> Result<(), NoMemory> {
    let mut sink = MemSink::new(rt.alloc(), 5, &[3], &[2])?;
    assert_eq!(rt; sink.write(b"abcd"), Put::Took(3));
    assert_eq!(rt; sink.write(b"d"), Put::Took(1));
    assert_eq!(rt; sink.write(b"e"), Put::Failed, "call 2 is to fail");
    assert_eq!(rt; sink.write(b"ef"), Put::Took(1), "one byte of room is left");
    assert_eq!(rt; sink.write(b"f"), Put::Failed, "no room is left");
    assert_eq!(rt; sink.bytes(), b"abcde".as_slice());
    Ok(())
}

#[test]
fn whole_bytes_are_written_in_pieces_of_one(rt: HostRuntime) -> Result<(), NoMemory> {
    let mut sink = MemSink::new(rt.alloc(), 6, &[1], &[6])?;
    assert_eq!(rt; write_whole(&mut sink, b"abcde"), Ok(()));
    assert_eq!(rt;
        write_whole(&mut sink, b""),
        Ok(()),
        "no call of the sink is made"
    );
    assert_eq!(rt;
        write_whole(&mut sink, b"fg"),
        Err(WriteFault),
        "call 6 is to fail"
    );
    assert_eq!(rt; sink.bytes(), b"abcdef".as_slice());
    Ok(())
}

#[test]
fn a_failed_write_is_answered_and_not_tried_again(rt: HostRuntime) -> Result<(), NoMemory> {
    for failing in 0..3u64 {
        // There is room for all, and the call behind the one that fails would take its bytes.
        let mut sink = MemSink::new(rt.alloc(), 8, &[2], &[failing])?;
        assert_eq!(rt;
            write_whole(&mut sink, b"abcdef"),
            Err(WriteFault),
            "at {failing}"
        );
        let taken = 2 * failing as usize;
        assert_eq!(rt; sink.bytes(), b"abcdef".split_at(taken).0, "at {failing}");
        assert_eq!(rt; write_whole(&mut sink, b"gh"), Ok(()), "at {failing}");
        assert_eq!(rt; sink.bytes().len(), taken + 2, "at {failing}");
    }
    Ok(())
}

// Gives two bytes at each read, and fails once they are gone.
#[derive(Drop)]
struct TwoThenFail(u8);

impl Read for TwoThenFail {
    fn read(&mut self, buf: &mut [u8]) -> IoResult<usize> {
        if self.0 == 0 || buf.len() < 2 {
            return Err(Error::from(ErrorKind::Other));
        }
        self.0 -= 1;
        buf[0] = b'x';
        buf[1] = b'y';
        Ok(2)
    }
}

#[test]
fn a_source_over_a_reader_passes_its_bytes_and_faults_on(rt: HostRuntime) {
    let mut source = StdSource::new(TwoThenFail(1));
    let mut buf = [0; 3];
    assert_eq!(rt; source.read(&mut buf), Got::Bytes(2));
    assert_eq!(rt; buf, *b"xy\0");
    assert_eq!(rt; source.read(&mut buf), Got::Failed);
    let mut text = StdSource::new(b"ab".as_slice());
    assert_eq!(rt; text.read(&mut buf), Got::Bytes(2));
    assert_eq!(rt; text.read(&mut buf), Got::End);
}

// Takes one byte at a time into an array, and fails at the flush of the second.
#[derive(Drop)]
struct OneAtATime {
    held: [u8; 4],
    len: usize,
}

impl Write for OneAtATime {
    fn write(&mut self, buf: &[u8]) -> IoResult<usize> {
        if self.len >= 4 || buf.is_empty() {
            return Ok(0);
        }
        self.held[self.len] = buf[0];
        self.len += 1;
        Ok(1)
    }

    fn flush(&mut self) -> IoResult<()> {
        if self.len == 3 {
            Err(Error::from(ErrorKind::Other))
        } else {
            Ok(())
        }
    }
}

#[test]
fn a_sink_over_a_writer_flushes_and_counts_what_takes_nothing_as_a_fault(rt: HostRuntime) {
    let mut held = OneAtATime {
        held: [0; 4],
        len: 0,
    };
    let mut sink = StdSink::new(&mut held);
    assert_eq!(rt; sink.write(b"ab"), Put::Took(1));
    assert_eq!(rt; sink.write(b"b"), Put::Took(1));
    assert_eq!(rt; sink.write(b"c"), Put::Failed, "the flush fails");
    assert_eq!(rt; sink.write(b"d"), Put::Took(1));
    assert_eq!(rt; sink.write(b"e"), Put::Failed, "the writer takes nothing");
    assert_eq!(rt; held.held, *b"abcd");
}

#[test]
fn a_null_sink_takes_every_piece_whole(rt: HostRuntime) {
    let mut sink = NullSink;
    assert_eq!(rt; sink.write(b"abc"), Put::Took(3));
    assert_eq!(rt; write_whole(&mut sink, b"defg"), Ok(()));
}

#[test]
fn a_list_keeps_items_in_order(rt: HostRuntime) -> Result<(), NoMemory> {
    let mut numbers = List::new(rt.alloc());
    numbers.push(7u64)?;
    numbers.push(5)?;
    assert_eq!(rt; numbers.items(), [7, 5].as_slice());
    let mut bytes = List::new(rt.alloc());
    bytes.push(b'a')?;
    bytes.extend(b"bc")?;
    bytes.extend(b"")?;
    assert_eq!(rt; bytes.items(), b"abc".as_slice());
    Ok(())
}
