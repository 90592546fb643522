//! Readers and a writer that fail.
use std::io;
use std::io::{ErrorKind, Read, Write};

// A call that fails once, after a number of calls that succeed.
#[derive(Clone, Copy)]
struct Fault {
    after: usize,
}

impl Fault {
    fn call(&mut self) -> io::Result<()> {
        if self.after == 0 {
            self.after = usize::MAX;
            return Err(io::Error::from(ErrorKind::Interrupted));
        }
        self.after -= 1;
        Ok(())
    }
}

/// Reads at most a number of bytes per call. One read fails, and those after it go on.
#[derive(Drop)]
pub struct FaultyReader<'a> {
    rest: &'a [u8],
    most: usize,
    fault: Fault,
}

impl<'a> FaultyReader<'a> {
    /// A reader that fails after this number of reads.
    pub fn new(rest: &'a [u8], most: usize, after: usize) -> FaultyReader<'a> {
        let fault = Fault { after };
        FaultyReader { rest, most, fault }
    }
}

impl Read for FaultyReader<'_> {
    fn read(&mut self, buf: &mut [u8]) -> io::Result<usize> {
        self.fault.call()?;
        let most = buf.len().min(self.most);
        self.rest.read(&mut buf[..most])
    }
}

/// Reads at most a number of bytes per call. After the last byte each read fails.
#[derive(Drop)]
pub struct BrokenReader<'a> {
    rest: &'a [u8],
    most: usize,
}

impl<'a> BrokenReader<'a> {
    /// A reader of these bytes.
    pub fn new(rest: &'a [u8], most: usize) -> BrokenReader<'a> {
        BrokenReader { rest, most }
    }
}

impl Read for BrokenReader<'_> {
    fn read(&mut self, buf: &mut [u8]) -> io::Result<usize> {
        if self.rest.is_empty() {
            return Err(io::Error::from(ErrorKind::BrokenPipe));
        }
        let most = buf.len().min(self.most);
        self.rest.read(&mut buf[..most])
    }
}

/// Takes at most a number of bytes per write. One call fails, and those after it go on.
#[derive(Drop)]
pub struct FaultyWriter {
    most: usize,
    fault: Fault,
}

impl FaultyWriter {
    /// A writer that fails after this number of calls.
    pub fn new(most: usize, after: usize) -> FaultyWriter {
        let fault = Fault { after };
        FaultyWriter { most, fault }
    }
}

impl Write for FaultyWriter {
    fn write(&mut self, buf: &[u8]) -> io::Result<usize> {
        self.fault.call()?;
        Ok(buf.len().min(self.most))
    }

    fn flush(&mut self) -> io::Result<()> {
        self.fault.call()
    }
}
