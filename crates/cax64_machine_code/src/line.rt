//! What a row of the table says of an instruction, in the terms of the manual's opcode column. (Intel SDM, volume 2,
//! 3.1.1.1 and 3.1.1.2.)

/// The legacy prefixes F0, 66, F2 and F3 that stand. (Intel SDM, volume 2, 2.1.1.)
#[derive(Clone, Copy, Debug, PartialEq)]
pub struct LegacySet {
    pub lock: bool,
    pub operand_size: bool,
    pub repne: bool,
    pub rep: bool,
}

/// What vvvv of a VEX prefix has to hold.
#[derive(Clone, Copy, Debug, PartialEq)]
pub enum VvvvField {
    VvvvRegister,
    /// No register: four set bits as they are stored.
    Stored1111,
}

/// What has to stand before the opcode.
#[derive(Clone, Copy, Debug, PartialEq)]
pub enum PrefixField {
    /// This very set of legacy prefixes; and whether a REX byte may follow them.
    LegacyField(LegacySet, bool),
    /// A VEX prefix with these fields pp, map and L.
    VexField(u8, u8, u8, VvvvField),
}

/// An opcode byte, and whether 0F stands before it.
#[derive(Clone, Copy, Debug, PartialEq)]
pub struct Opcode {
    pub escape: bool,
    pub byte: u8,
}

/// What stands in the reg field of ModR/M.
#[derive(Clone, Copy, Debug, PartialEq)]
pub enum RegField {
    Digit(u8),
    /// An 8-bit register.
    Register8,
    /// A register of another width.
    Register,
}

/// What the rest of the tail may name.
#[derive(Clone, Copy, Debug, PartialEq)]
pub enum PlaceField {
    Memory,
    RegisterOrMemory,
    /// An 8-bit register, or memory.
    Register8OrMemory,
}

/// What follows the opcode.
#[derive(Clone, Copy, Debug, PartialEq)]
pub enum TailField {
    NoTail,
    Modrm(RegField, PlaceField),
}

/// The immediate at the end, by its number of bytes.
#[derive(Clone, Copy, Debug, PartialEq)]
pub enum ImmField {
    NoImm,
    Imm(u8),
    /// A signed one.
    Simm(u8),
}

/// A line of the table.
#[derive(Clone, Copy, Debug, PartialEq)]
pub struct Line {
    pub prefix: PrefixField,
    /// The bit W; either value where it is absent.
    pub w: Option<u8>,
    pub opcode: Opcode,
    pub tail: TailField,
    pub imm: ImmField,
}
