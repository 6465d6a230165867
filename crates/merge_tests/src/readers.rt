//! A reader that gives little at once, or fails.
use std::io;
use std::io::{Error, ErrorKind, Read};

/// A reader of the bytes `left`. It gives at most `step` bytes at once, and fails once it has given
/// `most` bytes in all.
#[derive(Drop)]
pub struct Drip<'a> {
    pub left: &'a [u8],
    pub step: usize,
    pub most: usize,
}

impl<'a> Read for Drip<'a> {
    fn read(&mut self, room: &mut [u8]) -> io::Result<usize> {
        if self.most == 0 {
            return Err(Error::from(ErrorKind::Other));
        }
        let count = room
            .len()
            .min(self.left.len())
            .min(self.step)
            .min(self.most);
        room[..count].copy_from_slice(&self.left[..count]);
        self.left = &self.left[count..];
        self.most -= count;
        Ok(count)
    }
}
