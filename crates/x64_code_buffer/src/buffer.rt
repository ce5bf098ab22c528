//! The buffer, its labels and constants, and its end.

ghost use Rattle.std.specs.Prelude.{◌≡◌, ◌↔◌, refl, ◌+◌, ◌⊎◌, ◌≤◌, ℕ, [], Some, None, Ok, Err, IsOk, IsTrue, List, ◌∷◌, IfOk, IfErr, OnOk, OnErr, All, MatchOption, if◌then◌else◌, is_ok, length, slice_index, take};
ghost use Rattle.std.specs.Int.{to_le_bytes, w16, w32, w64};
ghost use Rattle.cax64_encoder.specs.EncodeError.{fault_found, IfRefused, NotRefused, OnFault};
ghost use Rattle.cax64_machine_code.specs.ReadLine.{parts_as};
ghost use Rattle.cax64_machine_code.specs.Reading.{Parts};
ghost use Rattle.cax64_machine_code.specs.Rows.{line_of};
ghost use Rattle.cax64_machine_code.specs.declared.reading.Reading.{Reading};
ghost use Rattle.cax64_sink.specs.Call.{Step, put, trap, target};
ghost use Rattle.cax64_sink.specs.Keeps.{Keeps};
ghost use Rattle.cax64_sink.specs.Puts.{puts};
ghost use Rattle.cax64_sink.specs.Recorder.{with_offset};
ghost use Rattle.cax64_sink.specs.Rest.{RanRoomier, is_imm_len, rest_actions};
ghost use Rattle.cax64_sink.specs.Room.{HasRoom, FallsBy, count};
ghost use Rattle.cax64_sink.specs.Run.{Ran};
ghost use Rattle.cax64_sink.specs.declared.DeferredTarget.{DeferredTarget};
ghost use Rattle.cax64_sink.specs.declared.SinkError.{SinkError};
ghost use Rattle.x64_code_buffer.specs.declared.errors.BindError.{BindError};
ghost use Rattle.x64_encode.specs.Encode.{ReadsRelativeBy, can_encode_by, fault_by, len_by, notices_by};

use crate::bindings::Bindings;
use crate::errors::{BindError, FinishError};
use crate::resolve::resolve_uses;
use crate::room::make_room;
use cax64_encoder::EncodeError;
use cax64_sink::{
    CodeSink, Constant, DeferredTarget, KnownOffset, Label, Notice, Recorder, SinkError, TrapCode,
};
use std::alloc::Allocator;
use x64_encode::Encode;

/// A recording sink that knows labels and constants.
#[derive(Drop)]
pub struct CodeBuffer<A: Allocator> {
    pub(crate) recorder: Recorder<A>,
    pub(crate) bindings: Bindings<A>,
    /// Whether no room was asked for yet, by the caller or by an instruction.
    pub(crate) is_fresh: bool,
}

impl<A: Allocator + Copy> CodeBuffer<A> {
    ghost use Rattle.x64_code_buffer.specs.Buffer.{buffer_state, label_count, label_room, places_of};
    ghost use Rattle.x64_code_buffer.specs.Filled.{Filled};
    ghost use Rattle.x64_code_buffer.specs.Laid.{Laid};

    /// An empty buffer that knows no offset, gave no label and bound nothing. Takes no memory, and has slots for sixteen
    /// labels.
    #[inline(always)]
    pub fn new(alloc: A) -> Self
        ensures bytes { (buffer_state result).bytes ≡ [] }
        ensures notices { (buffer_state result).notices ≡ [] }
        ensures offsets { (key : ℕ) → (buffer_state result).offsets key ≡ None }
        ensures byte_room { (buffer_state result).byte_room ≡ count 0 }
        ensures notice_room { (buffer_state result).notice_room ≡ count 0 }
        ensures labels { label_count result ≡ 0 }
        ensures label_room { label_room result ≡ 16 }
        ensures places { (target : DeferredTarget) → places_of result target ≡ None }
        ensures filled { Filled [] 0 (buffer_state result) (places_of result) }
        ensures laid { Laid [] 0 (buffer_state result) (places_of result) }
    {
        CodeBuffer {
            recorder: Recorder::new(alloc),
            bindings: Bindings::new(alloc),
            is_fresh: true,
        }
    }
}

impl<A: Allocator> CodeBuffer<A> {
    ghost use Rattle.x64_code_buffer.specs.Binding.{SamePlaces, AddsBinding, bind_answer};
    ghost use Rattle.cax64_sink.specs.Cleared.{cleared};
    ghost use Rattle.x64_code_buffer.specs.Buffer.{AsBefore, StaysFilled, buffer_state, label_count, label_room, places_of};
    ghost use Rattle.x64_code_buffer.specs.Filled.{Filled, FilledOn, Finished};
    ghost use Rattle.x64_code_buffer.specs.Laid.{Laid, LaidOn, LaidOut, Piece, whole};
    ghost use Rattle.x64_code_buffer.specs.Use.{uses_of, links, first_refusal, EachApart, IsOutside, IsPatched};

    /// Makes `offset` known, or replaces its value. Takes no memory.
    pub fn set_offset(&mut self, offset: KnownOffset, value: i32)
        ensures state { buffer_state self.new ≡ with_offset offset value (buffer_state self.old) }
        ensures labels { label_count self.new ≡ label_count self.old }
        ensures label_room { label_room self.new ≡ label_room self.old }
        ensures places { SamePlaces (places_of self.old) (places_of self.new) }
        ensures filled { StaysFilled self.old self.new }
    {
        self.recorder.set_offset(offset, value);
    }

    /// All bytes that were put, with each field as it was stored.
    pub fn bytes(&self) -> &[u8]
        ensures { result.now ≡ (buffer_state self.now).bytes }
    {
        self.recorder.bytes()
    }

    /// The notices in the order in which they were told.
    pub fn notices(&self) -> &[Notice]
        ensures { result.now ≡ (buffer_state self.now).notices }
    {
        self.recorder.notices()
    }

    /// The position that a label or a constant is bound to. A label takes constant time, and a constant as long as a hash map
    /// takes to find a key.
    pub fn place_of(&self, target: DeferredTarget) -> Option<usize>
        ensures { result ≡ places_of self.now target }
    {
        self.bindings.place_of(target)
    }

    /// How many labels were given: those of a lower number.
    pub fn labels(&self) -> u32
        ensures { result ≡ label_count self.now }
    {
        self.bindings.label_count()
    }

    /// Makes room for so many more bytes and notices, as [`Recorder::reserve`] does. An instruction has up to 13 bytes, and a
    /// notice.
    pub fn reserve(&mut self, bytes: usize, notices: usize) -> Result<(), SinkError>
        ensures room_for_bytes { OnOk result (HasRoom (buffer_state self.new).byte_room bytes) }
        ensures room_for_notices { OnOk result (HasRoom (buffer_state self.new).notice_room notices) }
        ensures as_before { AsBefore (buffer_state self.old) (buffer_state self.new) }
        ensures succeeds { HasRoom (buffer_state self.old).byte_room bytes → HasRoom (buffer_state self.old).notice_room notices → IsOk result }
        ensures no_memory { IfErr result (λ e. e ≡ SinkError.NoMemory) }
        ensures keeps { Keeps (buffer_state self.old) (buffer_state self.new) }
        ensures labels { label_count self.new ≡ label_count self.old }
        ensures label_room { label_room self.new ≡ label_room self.old }
        ensures places { SamePlaces (places_of self.old) (places_of self.new) }
        ensures filled { StaysFilled self.old self.new }
    {
        self.is_fresh = false;
        self.recorder.reserve(bytes, notices)
    }

    /// Makes room for so many more labels.
    pub fn reserve_labels(&mut self, count: usize) -> Result<(), SinkError>
        ensures room { OnOk result (count ≤ label_room self.new) }
        ensures room_stays { label_room self.old ≤ label_room self.new }
        ensures succeeds { count ≤ label_room self.old → IsOk result }
        ensures no_memory { IfErr result (λ e. e ≡ SinkError.NoMemory) }
        ensures labels { label_count self.new ≡ label_count self.old }
        ensures state { buffer_state self.new ≡ buffer_state self.old }
        ensures places { SamePlaces (places_of self.old) (places_of self.new) }
        ensures filled { StaysFilled self.old self.new }
    {
        self.bindings.reserve_labels(count)
    }

    /// The next label: `Label(0)`, `Label(1)` and so on. Makes room for its position, so that [`bind`](Self::bind) takes no
    /// memory. Takes constant time, over many labels.
    pub fn new_label(&mut self) -> Result<Label, SinkError>
        ensures number { IfOk result (λ label. label.0 ≡ label_count self.old) }
        ensures labels { label_count self.new ≡ label_count self.old + (if is_ok result then 1 else 0) }
        ensures full { (result ≡ Err SinkError.Full) ↔ (label_count self.old ≡ u32.MAX) }
        ensures enough { 1 ≤ label_room self.old → IfErr result (λ e. e ≡ SinkError.Full) }
        ensures label_room { label_room self.old ≤ label_room self.new + (if is_ok result then 1 else 0) }
        ensures state { buffer_state self.new ≡ buffer_state self.old }
        ensures places { SamePlaces (places_of self.old) (places_of self.new) }
        ensures filled { StaysFilled self.old self.new }
    {
        self.bindings.new_label()
    }

    /// Binds a label to the present number of bytes. Takes no memory, and constant time.
    pub fn bind(&mut self, label: Label) -> Result<(), BindError>
        ensures answer { result ≡ bind_answer (label_count self.old) label.0 (places_of self.old (DeferredTarget.Label label)) }
        ensures binds { OnOk result (AddsBinding (DeferredTarget.Label label) (length (buffer_state self.old).bytes) (places_of self.old) (places_of self.new)) }
        ensures unchanged { OnErr result (SamePlaces (places_of self.old) (places_of self.new)) }
        ensures labels { label_count self.new ≡ label_count self.old }
        ensures label_room { label_room self.new ≡ label_room self.old }
        ensures state { buffer_state self.new ≡ buffer_state self.old }
        ensures filled { StaysFilled self.old self.new }
    {
        let place = self.recorder.bytes().len();
        self.bindings.bind(label, place)
    }

    /// Puts an instruction, and tells of its trap or target.
    ///
    /// It makes room for thirteen bytes and a notice first, so a refusal leaves all as it was but the rooms. Where no byte was
    /// put yet it asks for 64, and later for twice its room; where these are refused it does with thirteen. Takes constant
    /// time, over many instructions.
    ///
    /// The instruction has to be encodable for the offsets that are set, as [`is_encodable`](Encode::is_encodable)
    /// tells. Where it isn't, a build that wasn't proved may put a wrong instruction and answer Ok, or abort.
    /// [`push_checked`](Self::push_checked) tests first, and has no condition.
    pub fn push<I: Encode>(&mut self, inst: &I) -> Result<(), SinkError>
        requires { IsTrue (can_encode_by (buffer_state self.old) (I.line_meant inst.now)) }
        ensures adds { OnOk result (I.adds inst.now (buffer_state self.old) (buffer_state self.new)) }
        ensures unchanged { OnErr result (AsBefore (buffer_state self.old) (buffer_state self.new)) }
        ensures error { IfErr result (λ e. e ≡ SinkError.NoMemory) }
        ensures enough { HasRoom (buffer_state self.old).byte_room 13 → HasRoom (buffer_state self.old).notice_room 1 → IsOk result }
        ensures byte_room { FallsBy (buffer_state self.old).byte_room (buffer_state self.new).byte_room (len_by (buffer_state self.old) (I.line_meant inst.now)) }
        ensures notice_room { FallsBy (buffer_state self.old).notice_room (buffer_state self.new).notice_room (notices_by (buffer_state self.old) (I.line_meant inst.now)) }
        ensures most_bytes { OnOk result (len_by (buffer_state self.old) (I.line_meant inst.now) ≤ 13) }
        ensures most_notices { notices_by (buffer_state self.old) (I.line_meant inst.now) ≤ 1 }
        ensures relative { OnOk result (ReadsRelativeBy (I.line_meant inst.now (buffer_state self.old).offsets)) }
        ensures keeps { Keeps (buffer_state self.old) (buffer_state self.new) }
        ensures labels { label_count self.new ≡ label_count self.old }
        ensures label_room { label_room self.new ≡ label_room self.old }
        ensures places { SamePlaces (places_of self.old) (places_of self.new) }
        ensures filled { (meant : Parts) → (I.line_meant inst.now (buffer_state self.old).offsets).parts ≡ parts_as (line_of meant.row) meant → (readings : List Reading) → Filled readings (length (buffer_state self.old).bytes) (buffer_state self.old) (places_of self.old) → OnOk result (FilledOn meant readings (buffer_state self.new) (places_of self.new)) }
        ensures laid { (pieces : List Piece) → Laid pieces (length (buffer_state self.old).bytes) (buffer_state self.old) (places_of self.old) → OnOk result (LaidOn whole (I.line_meant inst.now (buffer_state self.old).offsets).parts pieces (buffer_state self.new) (places_of self.new)) }
        ensures refused { OnErr result (StaysFilled self.old self.new) }
    {
        make_room(&mut self.recorder, &mut self.is_fresh)?;
        inst.encode(&mut self.recorder)
    }

    /// Tests an instruction, for the offsets that are set, and puts it as [`push`](Self::push) does.
    ///
    /// The test comes before room is made, so that at a fault all is as it was. A refusal leaves what that of `push` leaves.
    pub fn push_checked<I: Encode>(&mut self, inst: &I) -> Result<(), EncodeError>
        ensures fault { fault_found result ≡ fault_by (buffer_state self.old) (I.line_meant inst.now) }
        ensures untouched { OnFault result (self.new ≡ self.old) }
        ensures adds { OnOk result (I.adds inst.now (buffer_state self.old) (buffer_state self.new)) }
        ensures unchanged { OnErr result (AsBefore (buffer_state self.old) (buffer_state self.new)) }
        ensures error { IfRefused result (λ e. e ≡ SinkError.NoMemory) }
        ensures enough { HasRoom (buffer_state self.old).byte_room 13 → HasRoom (buffer_state self.old).notice_room 1 → NotRefused result }
        ensures byte_room { FallsBy (buffer_state self.old).byte_room (buffer_state self.new).byte_room (len_by (buffer_state self.old) (I.line_meant inst.now)) }
        ensures notice_room { FallsBy (buffer_state self.old).notice_room (buffer_state self.new).notice_room (notices_by (buffer_state self.old) (I.line_meant inst.now)) }
        ensures most_bytes { OnOk result (len_by (buffer_state self.old) (I.line_meant inst.now) ≤ 13) }
        ensures most_notices { notices_by (buffer_state self.old) (I.line_meant inst.now) ≤ 1 }
        ensures keeps { Keeps (buffer_state self.old) (buffer_state self.new) }
        ensures labels { label_count self.new ≡ label_count self.old }
        ensures label_room { label_room self.new ≡ label_room self.old }
        ensures places { SamePlaces (places_of self.old) (places_of self.new) }
        ensures filled { (meant : Parts) → (I.line_meant inst.now (buffer_state self.old).offsets).parts ≡ parts_as (line_of meant.row) meant → (readings : List Reading) → Filled readings (length (buffer_state self.old).bytes) (buffer_state self.old) (places_of self.old) → OnOk result (FilledOn meant readings (buffer_state self.new) (places_of self.new)) }
        ensures laid { (pieces : List Piece) → Laid pieces (length (buffer_state self.old).bytes) (buffer_state self.old) (places_of self.old) → OnOk result (LaidOn whole (I.line_meant inst.now (buffer_state self.old).offsets).parts pieces (buffer_state self.new) (places_of self.new)) }
        ensures refused { OnErr result (StaysFilled self.old self.new) }
    {
        // Where there is room already, as mostly, test and code are made at once.
        if self.recorder.has_room(13, 1) {
            return inst.encode_checked(&mut self.recorder);
        }
        if let Some(fault) = inst.first_fault(&self.recorder) {
            return Err(EncodeError::Fault(fault));
        }
        match self.push(inst) {
            Ok(()) => Ok(()),
            Err(error) => Err(EncodeError::Sink(error)),
        }
    }

    /// Patches the field of each use of a label or a constant, in place, and gives the bytes. Takes no memory.
    ///
    /// It looks at all uses before it patches any, and the first, in the order told, that can't be patched decides the
    /// refusal, which hands the buffer back as it was. Takes time in proportion to the uses, and for each use of a constant
    /// as long as a hash map takes to find a key.
    pub fn finish(self) -> Result<Vec<u8, A>, (CodeBuffer<A>, FinishError)>
        ensures ok { IsOk result ↔ (first_refusal (places_of self) (buffer_state self).bytes (uses_of (buffer_state self).notices) ≡ None) }
        ensures refused { IfErr result (λ e. first_refusal (places_of self) (buffer_state self).bytes (uses_of (buffer_state self).notices) ≡ Some e.1) }
        ensures unchanged { IfErr result (λ e. e.0 ≡ self) }
        ensures length { IfOk result (λ code. length code.items ≡ length (buffer_state self).bytes) }
        ensures fields { EachApart (links (uses_of (buffer_state self).notices)) → IfOk result (λ code. All (IsPatched (places_of self) (buffer_state self).bytes code.items) (links (uses_of (buffer_state self).notices))) }
        ensures others { (i : ℕ) → All (IsOutside i) (links (uses_of (buffer_state self).notices)) → IfOk result (λ code. slice_index code.items i ≡ slice_index (buffer_state self).bytes i) }
        ensures finished { (readings : List Reading) (n : ℕ) → Filled readings n (buffer_state self) (places_of self) → IfOk result (λ code. Finished readings n (buffer_state self) (places_of self) code.items) }
        ensures laid { (pieces : List Piece) (n : ℕ) → Laid pieces n (buffer_state self) (places_of self) → IfOk result (λ code. LaidOut pieces n (buffer_state self) (places_of self) code.items) }
    {
        // In parts, of which the one with the offsets isn't moved where it isn't handed back.
        let CodeBuffer {
            mut recorder,
            bindings,
            is_fresh,
        } = self;
        if let Err(error) = resolve_uses(&mut recorder, &bindings) {
            return Err((
                CodeBuffer {
                    recorder,
                    bindings,
                    is_fresh,
                },
                error,
            ));
        }
        Ok(recorder.into_bytes())
    }

    /// As [`finish`](Self::finish), and the buffer stays: with the patched bytes, the offsets, the labels and what is bound,
    /// but without the notices, which are to be read before. So there is no use left that a second call could patch.
    pub fn finish_in_place(&mut self) -> Result<(), FinishError>
        ensures ok { IsOk result ↔ (first_refusal (places_of self.old) (buffer_state self.old).bytes (uses_of (buffer_state self.old).notices) ≡ None) }
        ensures refused { IfErr result (λ e. first_refusal (places_of self.old) (buffer_state self.old).bytes (uses_of (buffer_state self.old).notices) ≡ Some e) }
        ensures unchanged { OnErr result (self.new ≡ self.old) }
        ensures length { length (buffer_state self.new).bytes ≡ length (buffer_state self.old).bytes }
        ensures fields { EachApart (links (uses_of (buffer_state self.old).notices)) → OnOk result (All (IsPatched (places_of self.old) (buffer_state self.old).bytes (buffer_state self.new).bytes) (links (uses_of (buffer_state self.old).notices))) }
        ensures others { (i : ℕ) → All (IsOutside i) (links (uses_of (buffer_state self.old).notices)) → OnOk result (slice_index (buffer_state self.new).bytes i ≡ slice_index (buffer_state self.old).bytes i) }
        ensures finished { (readings : List Reading) (n : ℕ) → Filled readings n (buffer_state self.old) (places_of self.old) → OnOk result (Finished readings n (buffer_state self.old) (places_of self.old) (buffer_state self.new).bytes) }
        ensures laid { (pieces : List Piece) (n : ℕ) → Laid pieces n (buffer_state self.old) (places_of self.old) → OnOk result (LaidOut pieces n (buffer_state self.old) (places_of self.old) (buffer_state self.new).bytes) }
        ensures notices { OnOk result ((buffer_state self.new).notices ≡ []) }
        ensures byte_room { (buffer_state self.new).byte_room ≡ (buffer_state self.old).byte_room }
        ensures notice_room { FallsBy (buffer_state self.old).notice_room (buffer_state self.new).notice_room 0 }
        ensures keeps { Keeps (buffer_state self.old) (buffer_state self.new) }
        ensures labels { label_count self.new ≡ label_count self.old }
        ensures label_room { label_room self.new ≡ label_room self.old }
        ensures places { SamePlaces (places_of self.old) (places_of self.new) }
    {
        resolve_uses(&mut self.recorder, &self.bindings)?;
        self.recorder.clear_notices();
        Ok(())
    }

    /// Forgets the bytes, the notices, the labels and the constants, and keeps the offsets that were set and all memory. The
    /// next label is `Label(0)`.
    pub fn clear(&mut self)
        ensures state { buffer_state self.new ≡ cleared (buffer_state self.old) }
        ensures labels { label_count self.new ≡ 0 }
        ensures label_room { label_room self.new ≡ label_room self.old + label_count self.old }
        ensures places { (target : DeferredTarget) → places_of self.new target ≡ None }
        ensures filled { Filled [] 0 (buffer_state self.new) (places_of self.new) }
        ensures laid { Laid [] 0 (buffer_state self.new) (places_of self.new) }
    {
        self.recorder.clear();
        self.bindings.clear();
    }
}

impl<A: Allocator + Clone> CodeBuffer<A> {
    ghost use Rattle.x64_code_buffer.specs.Binding.{SamePlaces, AddsBinding};
    ghost use Rattle.x64_code_buffer.specs.Buffer.{StaysFilled, buffer_state, label_count, label_room, places_of};

    /// Binds a constant, a key of the caller's, to the present number of bytes. That it is bound already is found before
    /// memory is asked for. Takes as long as a hash map takes to insert a key.
    pub fn bind_constant(&mut self, constant: Constant) -> Result<(), BindError>
        ensures answer { MatchOption (places_of self.old (DeferredTarget.Constant constant)) ((result ≡ Ok tt) ⊎ (result ≡ Err BindError.NoMemory)) (λ _. result ≡ Err BindError.Twice) }
        ensures binds { OnOk result (AddsBinding (DeferredTarget.Constant constant) (length (buffer_state self.old).bytes) (places_of self.old) (places_of self.new)) }
        ensures unchanged { OnErr result (SamePlaces (places_of self.old) (places_of self.new)) }
        ensures labels { label_count self.new ≡ label_count self.old }
        ensures label_room { label_room self.new ≡ label_room self.old }
        ensures state { buffer_state self.new ≡ buffer_state self.old }
        ensures filled { StaysFilled self.old self.new }
    {
        let place = self.recorder.bytes().len();
        self.bindings.bind_constant(constant, place)
    }
}

impl<A: Allocator> CodeSink for CodeBuffer<A> {
    ghost use Rattle.x64_code_buffer.specs.Binding.{SamePlaces};
    ghost use Rattle.x64_code_buffer.specs.Buffer.{KeepsLabels, StaysBefore, StaysFilled, buffer_state, keeps_labels_on, label_count, label_room, places_of};

    ghost state = { buffer_state };

    ghost may_become = { KeepsLabels };

    ghost may_stay = { λ _. record { labels = refl; label_room = refl; places = λ _. refl } };

    ghost may_go_on = { keeps_labels_on };

    fn put1(&mut self, value: u8) -> Result<(), SinkError>
        ensures step { Step (put (value ∷ [])) (buffer_state self.old) (buffer_state self.new) result }
        ensures beside { KeepsLabels self.old self.new }
        ensures labels { label_count self.new ≡ label_count self.old }
        ensures label_room { label_room self.new ≡ label_room self.old }
        ensures places { SamePlaces (places_of self.old) (places_of self.new) }
        ensures filled { StaysFilled self.old self.new }
    {
        self.recorder.put1(value)
    }

    fn put2(&mut self, value: u16) -> Result<(), SinkError>
        ensures step { Step (put (to_le_bytes w16 value)) (buffer_state self.old) (buffer_state self.new) result }
        ensures beside { KeepsLabels self.old self.new }
        ensures labels { label_count self.new ≡ label_count self.old }
        ensures label_room { label_room self.new ≡ label_room self.old }
        ensures places { SamePlaces (places_of self.old) (places_of self.new) }
        ensures filled { StaysFilled self.old self.new }
    {
        self.recorder.put2(value)
    }

    fn put4(&mut self, value: u32) -> Result<(), SinkError>
        ensures step { Step (put (to_le_bytes w32 value)) (buffer_state self.old) (buffer_state self.new) result }
        ensures beside { KeepsLabels self.old self.new }
        ensures labels { label_count self.new ≡ label_count self.old }
        ensures label_room { label_room self.new ≡ label_room self.old }
        ensures places { SamePlaces (places_of self.old) (places_of self.new) }
        ensures filled { StaysFilled self.old self.new }
    {
        self.recorder.put4(value)
    }

    fn put8(&mut self, value: u64) -> Result<(), SinkError>
        ensures step { Step (put (to_le_bytes w64 value)) (buffer_state self.old) (buffer_state self.new) result }
        ensures beside { KeepsLabels self.old self.new }
        ensures labels { label_count self.new ≡ label_count self.old }
        ensures label_room { label_room self.new ≡ label_room self.old }
        ensures places { SamePlaces (places_of self.old) (places_of self.new) }
        ensures filled { StaysFilled self.old self.new }
    {
        self.recorder.put8(value)
    }

    fn put_low_bytes(&mut self, word: u64, count: u8) -> Result<(), SinkError>
        requires least { 1 ≤ count }
        requires most { count ≤ 8 }
        ensures run { Ran (puts (take count (to_le_bytes w64 word))) (buffer_state self.old) (buffer_state self.new) result }
        ensures beside { KeepsLabels self.old self.new }
        ensures labels { label_count self.new ≡ label_count self.old }
        ensures label_room { label_room self.new ≡ label_room self.old }
        ensures places { SamePlaces (places_of self.old) (places_of self.new) }
        ensures filled { StaysFilled self.old self.new }
    {
        self.recorder.put_low_bytes(word, count)
    }

    fn put_rest(&mut self, long: Option<u32>, imm: u32, imm_len: u8) -> Result<(), SinkError>
        requires { IsTrue (is_imm_len imm_len) }
        ensures run { RanRoomier (rest_actions long imm_len imm) (buffer_state self.old) (buffer_state self.new) result }
        ensures beside { KeepsLabels self.old self.new }
        ensures labels { label_count self.new ≡ label_count self.old }
        ensures label_room { label_room self.new ≡ label_room self.old }
        ensures places { SamePlaces (places_of self.old) (places_of self.new) }
        ensures filled { StaysFilled self.old self.new }
    {
        self.recorder.put_rest(long, imm, imm_len)
    }

    fn add_trap(&mut self, code: TrapCode) -> Result<(), SinkError>
        ensures step { Step (trap code) (buffer_state self.old) (buffer_state self.new) result }
        ensures beside { KeepsLabels self.old self.new }
        ensures labels { label_count self.new ≡ label_count self.old }
        ensures label_room { label_room self.new ≡ label_room self.old }
        ensures places { SamePlaces (places_of self.old) (places_of self.new) }
        ensures filled { StaysFilled self.old self.new }
    {
        self.recorder.add_trap(code)
    }

    fn use_target(&mut self, place: DeferredTarget) -> Result<(), SinkError>
        ensures step { Step (target place) (buffer_state self.old) (buffer_state self.new) result }
        ensures beside { KeepsLabels self.old self.new }
        ensures labels { label_count self.new ≡ label_count self.old }
        ensures label_room { label_room self.new ≡ label_room self.old }
        ensures places { SamePlaces (places_of self.old) (places_of self.new) }
        ensures filled { OnOk result (StaysBefore (length (buffer_state self.old).bytes ∷ []) self.old self.new) }
        ensures refused { OnErr result (StaysFilled self.old self.new) }
    {
        self.recorder.use_target(place)
    }

    fn knows_offset(&self, offset: KnownOffset) -> bool {
        self.recorder.knows_offset(offset)
    }

    fn known_offset(&self, offset: KnownOffset) -> i32 {
        self.recorder.known_offset(offset)
    }
}
