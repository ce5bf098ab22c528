// Written by table/write.py from table/core.txt.
//! Bytes and moves by a condition.

ghost use Rattle.std.specs.Prelude.{◌≡◌, map};
ghost use Rattle.std.specs.List.{range_with_len};

use crate::makers::{RegRm, Rm};
use x64_lines::Op;

// A byte by a condition. (Intel SDM, volume 2, `SETcc`.)

/// `seto rm8`.
pub const SETO_M: Rm = without_imm!(Rm, 413);
/// `setno rm8`.
pub const SETNO_M: Rm = without_imm!(Rm, 414);
/// `setb rm8`.
pub const SETB_M: Rm = without_imm!(Rm, 415);
/// `setae rm8`.
pub const SETAE_M: Rm = without_imm!(Rm, 416);
/// `sete rm8`.
pub const SETE_M: Rm = without_imm!(Rm, 417);
/// `setne rm8`.
pub const SETNE_M: Rm = without_imm!(Rm, 418);
/// `setbe rm8`.
pub const SETBE_M: Rm = without_imm!(Rm, 419);
/// `seta rm8`.
pub const SETA_M: Rm = without_imm!(Rm, 420);
/// `sets rm8`.
pub const SETS_M: Rm = without_imm!(Rm, 421);
/// `setns rm8`.
pub const SETNS_M: Rm = without_imm!(Rm, 422);
/// `setp rm8`.
pub const SETP_M: Rm = without_imm!(Rm, 423);
/// `setnp rm8`.
pub const SETNP_M: Rm = without_imm!(Rm, 424);
/// `setl rm8`.
pub const SETL_M: Rm = without_imm!(Rm, 425);
/// `setge rm8`.
pub const SETGE_M: Rm = without_imm!(Rm, 426);
/// `setle rm8`.
pub const SETLE_M: Rm = without_imm!(Rm, 427);
/// `setg rm8`.
pub const SETG_M: Rm = without_imm!(Rm, 428);

// Moves by a condition. (Intel SDM, volume 2, `CMOVcc`.)

/// `cmovow r16, rm16`.
pub const CMOVOW_RM: RegRm = without_imm!(RegRm, 429);
/// `cmovol r32, rm32`.
pub const CMOVOL_RM: RegRm = without_imm!(RegRm, 430);
/// `cmovoq r64, rm64`.
pub const CMOVOQ_RM: RegRm = without_imm!(RegRm, 431);
/// `cmovnow r16, rm16`.
pub const CMOVNOW_RM: RegRm = without_imm!(RegRm, 432);
/// `cmovnol r32, rm32`.
pub const CMOVNOL_RM: RegRm = without_imm!(RegRm, 433);
/// `cmovnoq r64, rm64`.
pub const CMOVNOQ_RM: RegRm = without_imm!(RegRm, 434);
/// `cmovbw r16, rm16`.
pub const CMOVBW_RM: RegRm = without_imm!(RegRm, 435);
/// `cmovbl r32, rm32`.
pub const CMOVBL_RM: RegRm = without_imm!(RegRm, 436);
/// `cmovbq r64, rm64`.
pub const CMOVBQ_RM: RegRm = without_imm!(RegRm, 437);
/// `cmovaew r16, rm16`.
pub const CMOVAEW_RM: RegRm = without_imm!(RegRm, 438);
/// `cmovael r32, rm32`.
pub const CMOVAEL_RM: RegRm = without_imm!(RegRm, 439);
/// `cmovaeq r64, rm64`.
pub const CMOVAEQ_RM: RegRm = without_imm!(RegRm, 440);
/// `cmovew r16, rm16`.
pub const CMOVEW_RM: RegRm = without_imm!(RegRm, 441);
/// `cmovel r32, rm32`.
pub const CMOVEL_RM: RegRm = without_imm!(RegRm, 442);
/// `cmoveq r64, rm64`.
pub const CMOVEQ_RM: RegRm = without_imm!(RegRm, 443);
/// `cmovnew r16, rm16`.
pub const CMOVNEW_RM: RegRm = without_imm!(RegRm, 444);
/// `cmovnel r32, rm32`.
pub const CMOVNEL_RM: RegRm = without_imm!(RegRm, 445);
/// `cmovneq r64, rm64`.
pub const CMOVNEQ_RM: RegRm = without_imm!(RegRm, 446);
/// `cmovbew r16, rm16`.
pub const CMOVBEW_RM: RegRm = without_imm!(RegRm, 447);
/// `cmovbel r32, rm32`.
pub const CMOVBEL_RM: RegRm = without_imm!(RegRm, 448);
/// `cmovbeq r64, rm64`.
pub const CMOVBEQ_RM: RegRm = without_imm!(RegRm, 449);
/// `cmovaw r16, rm16`.
pub const CMOVAW_RM: RegRm = without_imm!(RegRm, 450);
/// `cmoval r32, rm32`.
pub const CMOVAL_RM: RegRm = without_imm!(RegRm, 451);
/// `cmovaq r64, rm64`.
pub const CMOVAQ_RM: RegRm = without_imm!(RegRm, 452);
/// `cmovsw r16, rm16`.
pub const CMOVSW_RM: RegRm = without_imm!(RegRm, 453);
/// `cmovsl r32, rm32`.
pub const CMOVSL_RM: RegRm = without_imm!(RegRm, 454);
/// `cmovsq r64, rm64`.
pub const CMOVSQ_RM: RegRm = without_imm!(RegRm, 455);
/// `cmovnsw r16, rm16`.
pub const CMOVNSW_RM: RegRm = without_imm!(RegRm, 456);
/// `cmovnsl r32, rm32`.
pub const CMOVNSL_RM: RegRm = without_imm!(RegRm, 457);
/// `cmovnsq r64, rm64`.
pub const CMOVNSQ_RM: RegRm = without_imm!(RegRm, 458);
/// `cmovpw r16, rm16`.
pub const CMOVPW_RM: RegRm = without_imm!(RegRm, 459);
/// `cmovpl r32, rm32`.
pub const CMOVPL_RM: RegRm = without_imm!(RegRm, 460);
/// `cmovpq r64, rm64`.
pub const CMOVPQ_RM: RegRm = without_imm!(RegRm, 461);
/// `cmovnpw r16, rm16`.
pub const CMOVNPW_RM: RegRm = without_imm!(RegRm, 462);
/// `cmovnpl r32, rm32`.
pub const CMOVNPL_RM: RegRm = without_imm!(RegRm, 463);
/// `cmovnpq r64, rm64`.
pub const CMOVNPQ_RM: RegRm = without_imm!(RegRm, 464);
/// `cmovlw r16, rm16`.
pub const CMOVLW_RM: RegRm = without_imm!(RegRm, 465);
/// `cmovll r32, rm32`.
pub const CMOVLL_RM: RegRm = without_imm!(RegRm, 466);
/// `cmovlq r64, rm64`.
pub const CMOVLQ_RM: RegRm = without_imm!(RegRm, 467);
/// `cmovgew r16, rm16`.
pub const CMOVGEW_RM: RegRm = without_imm!(RegRm, 468);
/// `cmovgel r32, rm32`.
pub const CMOVGEL_RM: RegRm = without_imm!(RegRm, 469);
/// `cmovgeq r64, rm64`.
pub const CMOVGEQ_RM: RegRm = without_imm!(RegRm, 470);
/// `cmovlew r16, rm16`.
pub const CMOVLEW_RM: RegRm = without_imm!(RegRm, 471);
/// `cmovlel r32, rm32`.
pub const CMOVLEL_RM: RegRm = without_imm!(RegRm, 472);
/// `cmovleq r64, rm64`.
pub const CMOVLEQ_RM: RegRm = without_imm!(RegRm, 473);
/// `cmovgw r16, rm16`.
pub const CMOVGW_RM: RegRm = without_imm!(RegRm, 474);
/// `cmovgl r32, rm32`.
pub const CMOVGL_RM: RegRm = without_imm!(RegRm, 475);
/// `cmovgq r64, rm64`.
pub const CMOVGQ_RM: RegRm = without_imm!(RegRm, 476);

/// Each constant is the line behind that of the one before it.
#[rattlefmt::skip]
fn in_order() -> [Op; 64]
    ensures { map (λ op. op.number) result ≡ range_with_len 413 64 }
{
    [
        SETO_M.op(), SETNO_M.op(), SETB_M.op(), SETAE_M.op(), SETE_M.op(), SETNE_M.op(),
        SETBE_M.op(), SETA_M.op(), SETS_M.op(), SETNS_M.op(), SETP_M.op(), SETNP_M.op(),
        SETL_M.op(), SETGE_M.op(), SETLE_M.op(), SETG_M.op(), CMOVOW_RM.op(), CMOVOL_RM.op(),
        CMOVOQ_RM.op(), CMOVNOW_RM.op(), CMOVNOL_RM.op(), CMOVNOQ_RM.op(), CMOVBW_RM.op(),
        CMOVBL_RM.op(), CMOVBQ_RM.op(), CMOVAEW_RM.op(), CMOVAEL_RM.op(), CMOVAEQ_RM.op(),
        CMOVEW_RM.op(), CMOVEL_RM.op(), CMOVEQ_RM.op(), CMOVNEW_RM.op(), CMOVNEL_RM.op(),
        CMOVNEQ_RM.op(), CMOVBEW_RM.op(), CMOVBEL_RM.op(), CMOVBEQ_RM.op(), CMOVAW_RM.op(),
        CMOVAL_RM.op(), CMOVAQ_RM.op(), CMOVSW_RM.op(), CMOVSL_RM.op(), CMOVSQ_RM.op(),
        CMOVNSW_RM.op(), CMOVNSL_RM.op(), CMOVNSQ_RM.op(), CMOVPW_RM.op(), CMOVPL_RM.op(),
        CMOVPQ_RM.op(), CMOVNPW_RM.op(), CMOVNPL_RM.op(), CMOVNPQ_RM.op(), CMOVLW_RM.op(),
        CMOVLL_RM.op(), CMOVLQ_RM.op(), CMOVGEW_RM.op(), CMOVGEL_RM.op(), CMOVGEQ_RM.op(),
        CMOVLEW_RM.op(), CMOVLEL_RM.op(), CMOVLEQ_RM.op(), CMOVGW_RM.op(), CMOVGL_RM.op(),
        CMOVGQ_RM.op(),
    ]
}
