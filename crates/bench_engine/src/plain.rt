//! Plain copies and plain averages of images, as a scale.

use crate::bench::Work;
use crate::bytes::last;
use crate::rows::average;
use pixel_formats::Format;
use std::alloc::Global;

/// The bytes of an image whose rows have so many, which is copied into memory that is asked for, or averaged to level 3.
#[derive(Drop)]
pub struct PlainWork {
    pub alloc: Global,
    pub format: Format,
    pub image: Vec<u8>,
    pub row_bytes: usize,
    pub is_averaged: bool,
}

impl Work for PlainWork {
    fn call(&mut self) -> Option<u64> {
        if !self.is_averaged {
            return Some(last(&Vec::from_slice(self.alloc, &self.image).ok()?));
        }
        let first = self.halved(&self.image, self.row_bytes)?;
        let second = self.halved(&first, self.row_bytes / 2)?;
        Some(last(&self.halved(&second, self.row_bytes / 4)?))
    }
}

impl PlainWork {
    /// Returns rows averaged to half as many of half the length. None if memory runs out.
    fn halved(&self, rows: &[u8], row_bytes: usize) -> Option<Vec<u8>> {
        let row_bytes = row_bytes.clamp(16, 1 << 20);
        let mut halved = vec![in self.alloc; 0u8; rows.len() / 4].ok()?;
        for (pair, half_row) in rows
            .chunks(2 * row_bytes)
            .zip(halved.chunks_mut(row_bytes / 2))
        {
            let (up, down) = pair.split_at(pair.len() / 2);
            average(self.format, up, down, half_row);
        }
        Some(halved)
    }
}
