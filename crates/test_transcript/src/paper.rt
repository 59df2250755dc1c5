//! What the output of a command is written on.

use std::alloc::Global;
use std::io;
use std::io::Write;

/// It keeps all that is written, or takes nothing.
#[derive(Drop)]
pub struct Paper {
    bytes: Vec<u8>,
    is_full: bool,
}

impl Paper {
    pub fn new(alloc: Global, is_full: bool) -> Paper {
        let bytes = Vec::new(alloc);
        Paper { bytes, is_full }
    }

    pub fn bytes(&self) -> &[u8] {
        &self.bytes
    }
}

impl Write for Paper {
    fn write(&mut self, buf: &[u8]) -> io::Result<usize> {
        if self.is_full {
            return Ok(0);
        }
        self.bytes.extend_from_slice(buf)?;
        Ok(buf.len())
    }

    fn flush(&mut self) -> io::Result<()> {
        Ok(())
    }
}
