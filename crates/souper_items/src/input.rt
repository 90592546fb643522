//! What is read.

use std::io;
use std::io::Read;

/// A reader in which a newline stands for each NUL character, if that is asked for.
#[derive(Drop)]
pub(crate) struct Input<R> {
    pub(crate) reader: R,

    /// Whether it does.
    pub(crate) nul_ends: bool,
}

impl<R: Read> Read for Input<R> {
    fn read(&mut self, buf: &mut [u8]) -> io::Result<usize> {
        let count = self.reader.read(buf)?;
        if self.nul_ends {
            for byte in buf.iter_mut() {
                if *byte == 0 {
                    *byte = b'\n';
                }
            }
        }
        Ok(count)
    }
}
