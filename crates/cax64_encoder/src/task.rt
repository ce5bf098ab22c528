//! Encoding, the test whether that can be, and the room that it takes, as tasks.

ghost use Rattle.std.specs.Prelude.{◌≡◌};
ghost use Rattle.cax64_encoder.specs.Checked.{holds};
ghost use Rattle.cax64_encoder.specs.Numbered.{notice_count};
ghost use Rattle.cax64_encoder.specs.Task.{Answered, Asked, Measured};

use crate::checked::Checked;
use crate::content::Content;
use crate::encoder::code_for;
use crate::room::{Counting, Measuring, RoomNeeded};
use cax64_machine_code::row::Row;
use cax64_operand::{RegisterFamily, Task};
use cax64_register::Registers;
use cax64_sink::{CodeSink, SinkError};

/// Puts the instruction into a sink.
impl<R: Registers, S: CodeSink> Task<R, S> for Content {
    type Answer = Result<(), SinkError>;

    ghost asks = { λ row content sink. Asked R ⟦<R as RegisterFamily>⟧.family (S.state sink).offsets row content };

    ghost answers = { λ row content old new result. Answered R ⟦<R as RegisterFamily>⟧.family row content (S.state old) (S.state new) result × S.may_become old new };

    #[inline(always)]
    fn take(self, row: Row, sink: &mut S) -> Result<(), SinkError> {
        code_for::<R, S>(row, &self, sink).put(sink)
    }
}

/// Whether the instruction can be encoded for a sink.
impl<'a, R: Registers, S: CodeSink> Task<R, &'a S> for Checked {
    type Answer = bool;

    ghost asks = { λ row checked sink. checked ≡ checked };

    ghost answers = { λ row checked old new result. result ≡ holds (S.state old.now).offsets checked };

    #[inline(always)]
    fn take(self, _row: Row, sink: &mut &'a S) -> bool {
        let sink: &S = *sink;
        self.holds(sink)
    }
}

/// How much room the instruction takes. Nothing of its code is put.
impl<'a, R: Registers, S: CodeSink> Task<R, Measuring<'a, S>> for Content {
    type Answer = RoomNeeded;

    ghost asks = { λ row content to. Asked R ⟦<R as RegisterFamily>⟧.family (S.state to.sink.now).offsets row content };

    ghost answers = { λ row content old new result. Measured R ⟦<R as RegisterFamily>⟧.family (S.state old.sink.now).offsets row content result };

    #[inline(always)]
    fn take(self, row: Row, to: &mut Measuring<'a, S>) -> RoomNeeded {
        RoomNeeded {
            bytes: code_for::<R, S>(row, &self, to.sink).len(),
            notices: self.form.place.notice_count(),
        }
    }
}

/// How many notices the instruction has.
impl<R: Registers> Task<R, Counting> for Content {
    type Answer = u8;

    ghost asks = { λ row content to. content ≡ content };

    ghost answers = { λ row content old new result. result ≡ notice_count content.form.place };

    #[inline(always)]
    fn take(self, _row: Row, _to: &mut Counting) -> u8 {
        self.form.place.notice_count()
    }
}
