//! Real files, standard streams, and devices that fail in midstream. Shelves and sinks in memory,
//! and their trips, are those of the stored runs of `sgm_cases` and of the tests of `sgm_app`.

ghost use Rattle.std.specs.Prelude.{◌≡◌, OnOk};
ghost use Rattle.sgm_io.specs.Unfinished.{without_name};

use sgm_io::{
    DiskShelf, FetchError, KeepError, Shelf, Sink, SinkError, StdSink, append_whole, read_at_most,
    write_whole,
};
use std::alloc::{AllocError, Global};
use std::io::{ErrorKind, Read, Write};
use std::test::Fail;
use std::{env, fs, io, process};

// Whether a fetch of so many bytes at most answers this.
fn gives<S: Shelf>(
    alloc: Global,
    shelf: &mut S,
    name: &str,
    most: usize,
    want: Result<&[u8], FetchError>,
) -> bool {
    let mut bytes = Vec::new(alloc);
    match (shelf.fetch(name, most, &mut bytes), want) {
        (Ok(()), Ok(want)) => bytes.as_slice() == want,
        (Err(fault), Err(want)) => fault == want,
        _ => false,
    }
}

// Writes a file from its beginning to its end.
fn keep<S: Shelf>(shelf: &mut S, name: &str, bytes: &[u8]) -> Result<(), KeepError>
    ensures { OnOk result
        (S.unfinished shelf.new ≡ without_name name.now (S.unfinished shelf.old)) }
{
    shelf.create(name)?;
    append_whole(shelf, bytes)?;
    shelf.finish()?;
    Ok(())
}

// The name of a file of this test alone.
fn scratch(rt: &HostRuntime) -> io::Result<String> {
    let folder = env::temp_dir(rt)?;
    format!(in rt.alloc(); "{}/sgm_io_{}", folder.display(), process::id(rt.process())).map_err(
        io::Error::from,
    )
}

// Bytes of which none is the one that stands a chunk before it.
fn unlike(alloc: Global, length: usize) -> Result<Vec<u8>, AllocError> {
    let mut bytes = Vec::new(alloc);
    for at in 0..length {
        bytes.push((at % 251) as u8)?;
    }
    Ok(bytes)
}

// Whether a file that is written is then these bytes alone, and refused where one byte less is
// allowed.
fn comes_back<S: Shelf>(alloc: Global, shelf: &mut S, name: &str, bytes: &[u8]) -> bool {
    let less = bytes.len().saturating_sub(1);
    keep(shelf, name, bytes) == Ok(())
        && !shelf.is_writing()
        && gives(alloc, shelf, name, bytes.len(), Ok(bytes))
        && gives(alloc, shelf, name, less, Err(FetchError::TooLong))
}

// Each file is shorter than the one that stood there; what is read goes over a chunk of 65536
// bytes, and over two.
#[test]
fn a_real_file_is_begun_anew_and_read_whole(rt: HostRuntime) -> Result<(), Fail> {
    let name = scratch(&rt)?;
    let bytes = unlike(rt.alloc(), 131_073)?;
    let mut shelf = DiskShelf::make(&rt, rt.alloc());
    for length in &[131_073, 131_072, 65_537, 65_536, 65_535, 1] {
        let Some(part) = bytes.get(..*length) else {
            return Err(Fail::new("a length"));
        };
        assert!(rt; comes_back(rt.alloc(), &mut shelf, name.as_str(), part));
    }
    fs::remove_file(&rt, name.as_str())?;
    Ok(())
}

// Whether a shelf gives no file of an absent name and no folder, and makes no file of a folder's
// name.
fn refuses<S: Shelf>(alloc: Global, shelf: &mut S, absent: &str) -> bool {
    gives(alloc, shelf, absent, 100, Err(FetchError::Failed))
        && gives(alloc, shelf, "/", 100, Err(FetchError::Failed))
        && shelf.create("/") == Err(KeepError::Failed)
}

#[test]
fn a_device_that_refuses_is_a_fault(rt: HostRuntime) -> Result<(), Fail> {
    let absent = scratch(&rt)?;
    let mut shelf = DiskShelf::make(&rt, rt.alloc());
    assert!(rt; refuses(rt.alloc(), &mut shelf, absent.as_str()));
    Ok(())
}

#[test]
fn short_reads_are_joined(rt: HostRuntime) -> Result<(), Fail> {
    let mut bytes = Vec::new(rt.alloc());
    let mut stream = b"one".as_slice().chain(b"three".as_slice());
    assert!(rt; read_at_most(&mut stream, 8, &mut bytes) == Ok(()));
    assert!(rt; bytes.as_slice() == b"onethree".as_slice());
    Ok(())
}

#[test]
fn a_standard_stream_takes_bytes(rt: HostRuntime) -> Result<(), Fail> {
    let mut sink = StdSink::make(rt.stdout());
    assert!(rt; write_whole(&mut sink, b"written\n") == Ok(()));
    Ok(())
}

#[test]
fn a_stream_that_takes_none_is_a_fault(rt: HostRuntime) -> Result<(), Fail> {
    let mut sink = StdSink::make(fs::open(&rt, "/")?);
    assert!(rt; write_whole(&mut sink, b"lost\n") == Err(SinkError::Failed));
    Ok(())
}

// A device that reads and writes two bytes, and then fails.
#[derive(Drop)]
struct Failing {
    calls: u8,
}

impl Read for Failing {
    fn read(&mut self, buf: &mut [u8]) -> io::Result<usize> {
        self.calls = self.calls.saturating_add(1);
        match self.calls {
            1 => Ok(buf.len().min(2)),
            _ => Err(io::Error::from(ErrorKind::Other)),
        }
    }
}

impl Write for Failing {
    fn write(&mut self, buf: &[u8]) -> io::Result<usize> {
        self.calls = self.calls.saturating_add(1);
        match self.calls {
            1 => Ok(buf.len().min(2)),
            2 => Ok(0),
            _ => Err(io::Error::from(ErrorKind::Other)),
        }
    }

    fn flush(&mut self) -> io::Result<()> {
        Ok(())
    }
}

// Whether such a device's sink takes two bytes, and then none.
fn takes_two(sink: &mut StdSink<Failing>) -> bool {
    sink.write(b"abc") == Ok(2)
        && sink.write(b"c") == Err(SinkError::Failed)
        && write_whole(sink, b"c") == Err(SinkError::Failed)
}

#[test]
fn a_device_may_fail_in_midstream(rt: HostRuntime) -> Result<(), Fail> {
    let mut bytes = Vec::new(rt.alloc());
    let answer = read_at_most(&mut Failing { calls: 0 }, 100, &mut bytes);
    assert!(rt; answer == Err(FetchError::Failed));
    assert!(rt; takes_two(&mut StdSink::make(Failing { calls: 0 })));
    Ok(())
}
