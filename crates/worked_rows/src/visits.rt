//! Visits of registers, and their renaming.

ghost use Rattle.std.specs.Prelude.{◌≡◌, ◌-◌, ◌<◌, ◌⊎◌, nat_le, if◌then◌else◌};

use cax64_test_support::{All, Few};
use cranelift_assembler_x64::inst::{jmp_d8, lock_addl_mr, lock_xaddl_mr, mulxq_rvm};
use cranelift_assembler_x64::{
    Amode, AmodeOffset, AmodeOffsetPlusKnownOffset, Fault, Fixed, FixedSink, Gpr, GprMem,
    Instruction, NonRspGpr, Numbers, RegisterVisitor, Registers, Scale, Simm8, rename,
};
use std::test::Fail;

/// Lowers each number from 128 up by 128.
#[derive(Drop)]
struct Lower;

/// The number in the hardware.
fn lowered(number: u8) -> u8
    ensures { result ≡ (if nat_le 128 number then number - 128 else number) }
{
    if number >= 128 { number - 128 } else { number }
}

impl RegisterVisitor<Numbers> for Lower {
    ghost steps = { record {
      read_gpr = λ v r t w. t ≡ (if nat_le 128 r then r - 128 else r);
      read_write_gpr = λ v r t w. t ≡ (if nat_le 128 r then r - 128 else r);
      write_gpr = λ v r t w. t ≡ (if nat_le 128 r then r - 128 else r);
      fixed_read_gpr = λ n v r t w. t ≡ (if nat_le 128 r then r - 128 else r);
      fixed_read_write_gpr = λ n v r t w. t ≡ (if nat_le 128 r then r - 128 else r);
      fixed_write_gpr = λ n v r t w. t ≡ (if nat_le 128 r then r - 128 else r);
      read_xmm = λ v r t w. t ≡ (if nat_le 128 r then r - 128 else r);
      read_write_xmm = λ v r t w. t ≡ (if nat_le 128 r then r - 128 else r);
      write_xmm = λ v r t w. t ≡ (if nat_le 128 r then r - 128 else r);
      fixed_read_xmm = λ n v r t w. t ≡ (if nat_le 128 r then r - 128 else r);
      fixed_read_write_xmm = λ n v r t w. t ≡ (if nat_le 128 r then r - 128 else r);
      fixed_write_xmm = λ n v r t w. t ≡ (if nat_le 128 r then r - 128 else r);
    } };

    fn read_gpr(&mut self, reg: &mut u8) {
        *reg = lowered(*reg);
    }

    fn read_write_gpr(&mut self, reg: &mut u8) {
        *reg = lowered(*reg);
    }

    fn write_gpr(&mut self, reg: &mut u8) {
        *reg = lowered(*reg);
    }

    fn fixed_read_gpr(&mut self, reg: &mut u8, _enc: u8) {
        *reg = lowered(*reg);
    }

    fn fixed_read_write_gpr(&mut self, reg: &mut u8, _enc: u8) {
        *reg = lowered(*reg);
    }

    fn fixed_write_gpr(&mut self, reg: &mut u8, _enc: u8) {
        *reg = lowered(*reg);
    }

    fn read_xmm(&mut self, reg: &mut u8) {
        *reg = lowered(*reg);
    }

    fn read_write_xmm(&mut self, reg: &mut u8) {
        *reg = lowered(*reg);
    }

    fn write_xmm(&mut self, reg: &mut u8) {
        *reg = lowered(*reg);
    }

    fn fixed_read_xmm(&mut self, reg: &mut u8, _enc: u8) {
        *reg = lowered(*reg);
    }

    fn fixed_read_write_xmm(&mut self, reg: &mut u8, _enc: u8) {
        *reg = lowered(*reg);
    }

    fn fixed_write_xmm(&mut self, reg: &mut u8, _enc: u8) {
        *reg = lowered(*reg);
    }
}

/// Counts the calls that it gets. The registers of any family stay.
#[derive(Drop)]
struct Count(usize);

impl Count {
    fn add(&mut self) {
        self.0 = self.0.saturating_add(1);
    }
}

impl<R: Registers> RegisterVisitor<R> for Count {
    ghost steps = { record {
      read_gpr = λ v r t w. t ≡ r;
      read_write_gpr = λ v r t w. t ≡ r;
      write_gpr = λ v r t w. t ≡ r;
      fixed_read_gpr = λ n v r t w. t ≡ r;
      fixed_read_write_gpr = λ n v r t w. t ≡ r;
      fixed_write_gpr = λ n v r t w. t ≡ r;
      read_xmm = λ v r t w. t ≡ r;
      read_write_xmm = λ v r t w. t ≡ r;
      write_xmm = λ v r t w. t ≡ r;
      fixed_read_xmm = λ n v r t w. t ≡ r;
      fixed_read_write_xmm = λ n v r t w. t ≡ r;
      fixed_write_xmm = λ n v r t w. t ≡ r;
    } };

    fn read_gpr(&mut self, _reg: &mut R::ReadGpr) {
        self.add();
    }

    fn read_write_gpr(&mut self, _reg: &mut R::ReadWriteGpr) {
        self.add();
    }

    fn write_gpr(&mut self, _reg: &mut R::WriteGpr) {
        self.add();
    }

    fn fixed_read_gpr(&mut self, _reg: &mut R::ReadGpr, _enc: u8) {
        self.add();
    }

    fn fixed_read_write_gpr(&mut self, _reg: &mut R::ReadWriteGpr, _enc: u8) {
        self.add();
    }

    fn fixed_write_gpr(&mut self, _reg: &mut R::WriteGpr, _enc: u8) {
        self.add();
    }

    fn read_xmm(&mut self, _reg: &mut R::ReadXmm) {
        self.add();
    }

    fn read_write_xmm(&mut self, _reg: &mut R::ReadWriteXmm) {
        self.add();
    }

    fn write_xmm(&mut self, _reg: &mut R::WriteXmm) {
        self.add();
    }

    fn fixed_read_xmm(&mut self, _reg: &mut R::ReadXmm, _enc: u8) {
        self.add();
    }

    fn fixed_read_write_xmm(&mut self, _reg: &mut R::ReadWriteXmm, _enc: u8) {
        self.add();
    }

    fn fixed_write_xmm(&mut self, _reg: &mut R::WriteXmm, _enc: u8) {
        self.add();
    }
}

/// Keeps a table of the names that it met, and puts a name's place in the table for it. Once the table is full it halts:
/// names that it doesn't know stay.
#[derive(Drop)]
struct Table<const N: usize> {
    names: Vec<u8>,
}

impl<const N: usize> Table<N> {
    fn place(&mut self, name: u8) -> u8
        ensures { (result ≡ name) ⊎ (result < 16) }
    {
        match self.names.iter().position(|known| *known == name) {
            Some(place) if place < 16 => place as u8,
            Some(_) => name,
            None => self.added(name),
        }
    }

    fn added(&mut self, name: u8) -> u8
        ensures { (result ≡ name) ⊎ (result < 16) }
    {
        let place = self.names.len();
        if place < N && place < 16 && self.names.push(name).is_ok() {
            return place as u8;
        }
        name
    }
}

impl<const N: usize> RegisterVisitor<Numbers> for Table<N> {
    ghost steps = { record {
      read_gpr = λ v r t w. (t ≡ r) ⊎ (t < 16);
      read_write_gpr = λ v r t w. (t ≡ r) ⊎ (t < 16);
      write_gpr = λ v r t w. (t ≡ r) ⊎ (t < 16);
      fixed_read_gpr = λ n v r t w. (t ≡ r) ⊎ (t < 16);
      fixed_read_write_gpr = λ n v r t w. (t ≡ r) ⊎ (t < 16);
      fixed_write_gpr = λ n v r t w. (t ≡ r) ⊎ (t < 16);
      read_xmm = λ v r t w. (t ≡ r) ⊎ (t < 16);
      read_write_xmm = λ v r t w. (t ≡ r) ⊎ (t < 16);
      write_xmm = λ v r t w. (t ≡ r) ⊎ (t < 16);
      fixed_read_xmm = λ n v r t w. (t ≡ r) ⊎ (t < 16);
      fixed_read_write_xmm = λ n v r t w. (t ≡ r) ⊎ (t < 16);
      fixed_write_xmm = λ n v r t w. (t ≡ r) ⊎ (t < 16);
    } };

    fn read_gpr(&mut self, reg: &mut u8) {
        *reg = self.place(*reg);
    }

    fn read_write_gpr(&mut self, reg: &mut u8) {
        *reg = self.place(*reg);
    }

    fn write_gpr(&mut self, reg: &mut u8) {
        *reg = self.place(*reg);
    }

    fn fixed_read_gpr(&mut self, reg: &mut u8, _enc: u8) {
        *reg = self.place(*reg);
    }

    fn fixed_read_write_gpr(&mut self, reg: &mut u8, _enc: u8) {
        *reg = self.place(*reg);
    }

    fn fixed_write_gpr(&mut self, reg: &mut u8, _enc: u8) {
        *reg = self.place(*reg);
    }

    fn read_xmm(&mut self, reg: &mut u8) {
        *reg = self.place(*reg);
    }

    fn read_write_xmm(&mut self, reg: &mut u8) {
        *reg = self.place(*reg);
    }

    fn write_xmm(&mut self, reg: &mut u8) {
        *reg = self.place(*reg);
    }

    fn fixed_read_xmm(&mut self, reg: &mut u8, _enc: u8) {
        *reg = self.place(*reg);
    }

    fn fixed_read_write_xmm(&mut self, reg: &mut u8, _enc: u8) {
        *reg = self.place(*reg);
    }

    fn fixed_write_xmm(&mut self, reg: &mut u8, _enc: u8) {
        *reg = self.place(*reg);
    }
}

#[test]
fn calls_are_counted(rt: HostRuntime) {
    let mut count = Count(0);
    let mut multiply = mulxq_rvm::<Numbers>::new(
        Gpr::new(1),
        Gpr::new(1),
        GprMem::Gpr(8),
        Fixed(2),
    );
    multiply.visit(&mut count);
    assert!(rt; count.0 == 3);
    // without registers it takes visitors of any family
    let mut jump = jmp_d8::new(Simm8::new(-2));
    jump.visit::<All<Few>, Count>(&mut count);
    assert!(rt; count.0 == 3);
}

#[test]
fn a_renamed_addition_has_the_new_registers(rt: HostRuntime) -> Result<(), Fail> {
    let place = Amode::ImmReg {
        base: 140,
        simm32: AmodeOffsetPlusKnownOffset {
            simm32: AmodeOffset::new(-128),
            offset: None,
        },
        trap: None,
    };
    let mut add = lock_addl_mr::<Numbers>::new(place, Gpr::new(137));
    let mut sink: Vec<u8> = Vec::new(rt.alloc());
    assert!(rt; !add.is_encodable(&sink));
    rename(&mut add, &mut Lower);
    assert!(rt; add.is_encodable(&sink));
    assert!(rt; add.encode(&mut sink) == Ok(()));
    assert!(rt; sink.as_slice() == [0xF0, 0x45, 0x01, 0x4C, 0x24, 0x80].as_slice());
    Ok(())
}

/// An addition whose three registers have the names 140, 137 and 140.
fn named_addition() -> lock_xaddl_mr<Numbers> {
    let place = Amode::ImmRegRegShift {
        base: 137,
        index: NonRspGpr::new(140),
        scale: Scale::One,
        simm32: AmodeOffset::new(0),
        trap: None,
    };
    lock_xaddl_mr::new(place, Gpr::new(140))
}

#[test]
fn a_table_of_names_gives_their_places(rt: HostRuntime) {
    let mut add = named_addition();
    let mut table: Table<2> = Table {
        names: Vec::new(rt.alloc()),
    };
    add.visit(&mut table);
    assert!(rt; table.names.as_slice() == [140, 137].as_slice());
    let mut sink = FixedSink::<5>::new();
    assert!(rt; add.is_encodable(&sink));
    assert!(rt; add.encode(&mut sink) == Ok(()));
    assert!(rt; sink.bytes() == [0xF0, 0x0F, 0xC1, 0x04, 0x01].as_slice());
}

#[test]
fn a_full_table_halts(rt: HostRuntime) {
    let mut add = named_addition();
    let mut table: Table<1> = Table {
        names: Vec::new(rt.alloc()),
    };
    add.visit(&mut table);
    assert!(rt; table.names.as_slice() == [140].as_slice());
    let sink = FixedSink::<5>::new();
    assert!(rt; add.first_fault(&sink) == Some(Fault::Register(1)));
}
