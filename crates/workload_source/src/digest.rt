//! One number for all results, in their order.

/// The number so far.
#[derive(Clone, Copy)]
pub struct Digest(u64);

impl Digest {
    pub fn new() -> Digest {
        Digest(0xCBF2_9CE4_8422_2325)
    }

    #[inline(always)]
    pub fn word(&mut self, word: u64) {
        let mixed = (self.0 ^ word).wrapping_mul(0x9E37_79B9_7F4A_7C15);
        self.0 = mixed ^ (mixed >> 29);
    }

    /// Some bytes and how many they are.
    pub fn bytes(&mut self, bytes: &[u8]) {
        let mut chunks = bytes.chunks_exact(8);
        for chunk in &mut chunks {
            if let [a, b, c, d, e, f, g, h] = chunk {
                self.word(u64::from_le_bytes([*a, *b, *c, *d, *e, *f, *g, *h]));
            }
        }
        for byte in chunks.remainder() {
            self.word(u64::from(*byte));
        }
        self.word(bytes.len() as u64);
    }

    pub fn number(&self) -> u64 {
        self.0
    }
}
