//! Standard output, and whether anything was written there.
use std::io::{self, Write};

/// Standard output, which notes whether a byte was written.
#[derive(Drop)]
pub struct Output<'a> {
    pub rt: &'a HostRuntime,
    /// Whether a byte was written.
    pub is_written: bool,
}

impl Write for Output<'_> {
    fn write(&mut self, bytes: &[u8]) -> io::Result<usize> {
        let count = self.rt.stdout().write(bytes)?;
        if count != 0 {
            self.is_written = true;
        }
        Ok(count)
    }

    fn flush(&mut self) -> io::Result<()> {
        self.rt.stdout().flush()
    }
}
