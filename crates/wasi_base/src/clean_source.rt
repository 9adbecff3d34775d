ghost use Rattle.std.specs.Prelude.{◌≡◌, Some, []};

use crate::source::copy_front;
use crate::{IoKind, Source};
use std::marker::Model;

/// A source in memory that never fails and gives all that fits.
#[derive(Drop)]
pub struct CleanSource {
    bytes: Vec<u8>,
    at: usize,
}

impl Model for CleanSource {
    ghost use Rattle.std.specs.Prelude.{◌≤◌, length, drop, List, ℕ};

    ghost Value = { List ℕ };

    ghost view = { λ s. drop s.at s.bytes.items };

    ghost invariant = { λ s. s.at ≤ length s.bytes.items };
}

impl CleanSource {
    pub fn new(bytes: Vec<u8>) -> CleanSource
        ensures { result ≡ bytes.items }
    {
        CleanSource { bytes, at: 0 }
    }

    /// The bytes that no read gave yet.
    pub fn left(&self) -> &[u8]
        ensures { result.now ≡ self.now }
    {
        &self.bytes[self.at..]
    }
}

impl Source for CleanSource {
    ghost told = { λ left. Some (record { left = left; plan = [] }) };

    ghost faults = { λ left. 0 };

    fn read(&mut self, buf: &mut [u8]) -> Result<usize, IoKind> {
        let room = buf.len();
        let count = copy_front(&self.bytes[self.at..], room, buf);
        self.at += count;
        Ok(count)
    }
}
