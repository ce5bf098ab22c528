//! Texts of what is timed: of instructions of the port, and of the core.

ghost use Rattle.std.specs.Prelude.{◌≡◌, Bool, IsTrue};
ghost use Rattle.cranelift_assembler_x64.specs.Text as port;
ghost use Rattle.x64_core.specs.View.{core_view};
ghost use Rattle.x64_text.specs.Text as core_text;

use cranelift_assembler_x64::InstructionText;
use std::alloc::{AllocError, Global};
use x64_core::Core;
use x64_text::CoreText;

/// How instructions of a type are printed.
pub(crate) trait Texts<I> {
    // Whether one has a text.
    ghost has_text: { I → Bool };

    fn nameable(inst: &I) -> bool
        ensures { result ≡ has_text inst.now };

    fn to_string(alloc: Global, inst: &I) -> Result<String, AllocError>
        requires { IsTrue (has_text inst.now) };
}

/// As the public crate prints them.
#[derive(Drop)]
pub(crate) struct OfPort;

impl<I: InstructionText> Texts<I> for OfPort {
    ghost has_text = { λ i. port.nameable I.names (I.operands_of i) };

    #[inline(always)]
    fn nameable(inst: &I) -> bool {
        inst.nameable()
    }

    #[inline(always)]
    fn to_string(alloc: Global, inst: &I) -> Result<String, AllocError> {
        inst.to_string(alloc)
    }
}

/// As the core prints its own.
#[derive(Drop)]
pub(crate) struct OfCore;

impl Texts<Core> for OfCore {
    ghost has_text = { λ core. core_text.nameable (core_view core) };

    #[inline(always)]
    fn nameable(inst: &Core) -> bool {
        CoreText::nameable(inst)
    }

    #[inline(always)]
    fn to_string(alloc: Global, inst: &Core) -> Result<String, AllocError> {
        CoreText::to_string(inst, alloc)
    }
}
