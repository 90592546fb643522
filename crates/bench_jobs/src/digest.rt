//! A digest of bytes.

const FACTOR: u64 = 0x517c_c1b7_2722_0a95;

/// A digest of the bytes that were added. It does not depend on how they are divided among the calls.
#[derive(Clone, Copy)]
pub(crate) struct Digest {
    hash: u64,

    // The bytes since the last whole word, and their number.
    word: u64,
    count: u32,
}

impl Digest {
    pub(crate) fn new() -> Digest {
        Digest {
            hash: 0,
            word: 0,
            count: 0,
        }
    }

    // Adds a word of 8 bytes.
    fn mix(&mut self, word: u64) {
        self.hash = (self.hash.rotate_left(5) ^ word).wrapping_mul(FACTOR);
    }

    fn byte(&mut self, byte: u8) {
        self.word = self.word << 8 | u64::from(byte);
        self.count = self.count.wrapping_add(1) & 7;
        if self.count == 0 {
            let word = self.word;
            self.mix(word);
        }
    }

    fn bytes(&mut self, bytes: &[u8]) {
        for byte in bytes {
            self.byte(*byte);
        }
    }

    /// Adds the bytes.
    pub(crate) fn add(&mut self, bytes: &[u8]) {
        let ahead = ((8 - (self.count & 7)) & 7) as usize;
        let ahead = ahead.min(bytes.len());
        self.bytes(&bytes[..ahead]);
        for chunk in bytes[ahead..].chunks(8) {
            match chunk {
                [a, b, c, d, e, f, g, h] if self.count == 0 => {
                    self.mix(u64::from_be_bytes([*a, *b, *c, *d, *e, *f, *g, *h]));
                }
                rest => self.bytes(rest),
            }
        }
    }

    /// Adds a number.
    pub(crate) fn number(&mut self, number: u64) {
        self.add(&number.to_be_bytes());
    }

    /// The digest so far.
    pub(crate) fn value(&self) -> u64 {
        let hash = self.hash ^ self.word ^ u64::from(self.count);
        (hash ^ hash >> 29).wrapping_mul(FACTOR)
    }
}
