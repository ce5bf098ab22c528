//! Random numbers that follow from a seed: SplitMix64, of Steele, Lea and Flood, "Fast splittable pseudorandom number
//! generators", 2014.

/// What is still to come.
#[derive(Clone, Copy)]
pub struct Random(u64);

impl Random {
    pub fn new(seed: u64) -> Random {
        Random(seed)
    }

    pub fn word(&mut self) -> u64 {
        self.0 = self.0.wrapping_add(0x9E37_79B9_7F4A_7C15);
        let mixed = (self.0 ^ (self.0 >> 30)).wrapping_mul(0xBF58_476D_1CE4_E5B9);
        let mixed = (mixed ^ (mixed >> 27)).wrapping_mul(0x94D0_49BB_1331_11EB);
        mixed ^ (mixed >> 31)
    }

    pub fn bytes(&mut self) -> [u8; 8] {
        self.word().to_le_bytes()
    }

    pub fn byte(&mut self) -> u8 {
        let [first, ..] = self.bytes();
        first
    }

    /// So many numbers from 0 on are as likely as each other.
    pub fn below(&mut self, count: u32) -> u32 {
        let [a, b, c, d, ..] = self.bytes();
        let number = u32::from_le_bytes([a, b, c, d]);
        number.checked_rem(count).unwrap_or(0)
    }
}
