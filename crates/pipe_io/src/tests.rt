use crate::{Failed, ReadSource, Sink, Source, WriteSink};
use std::io::{self, ErrorKind, Read, Write};
use std::test::Fail;

/// Every call is refused.
#[derive(Drop)]
struct Broken;

impl Read for Broken {
    fn read(&mut self, _buf: &mut [u8]) -> io::Result<usize> {
        Err(ErrorKind::NotFound.into())
    }
}

impl Write for Broken {
    fn write(&mut self, _buf: &[u8]) -> io::Result<usize> {
        Err(ErrorKind::NotFound.into())
    }

    fn flush(&mut self) -> io::Result<()> {
        Ok(())
    }
}

#[test]
fn reads_what_the_reader_gives(rt: HostRuntime) {
    let text = b"abc";
    let mut buf = [0; 8];
    let mut source = ReadSource::new(text.as_slice());
    assert_eq!(rt; source.read(&mut buf), Ok(3));
    assert!(rt; &buf[..3] == text.as_slice());
    assert_eq!(rt; source.read(&mut buf), Ok(0));
    assert_eq!(rt; ReadSource::new(Broken).read(&mut buf), Err(Failed));
}

#[test]
fn writes_what_it_is_given(rt: HostRuntime) -> Result<(), Fail> {
    let mut written = Vec::new(rt.alloc());
    let mut sink = WriteSink::new(&mut written);
    assert_eq!(rt; sink.write(b"abc"), Ok(3));
    assert_eq!(rt; sink.write(b"d"), Ok(1));
    assert!(rt; written.as_slice() == b"abcd".as_slice());
    assert_eq!(rt; WriteSink::new(Broken).write(b"e"), Err(Failed));
    Ok(())
}
