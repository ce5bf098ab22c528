//! Laws of lists that were put.

ghost use Rattle.std.specs.Prelude.{◌≡◌, ◌+◌, ℕ, pos, List, Some, length, option_map};
ghost use Rattle.cax64_machine_code.specs.Address.{modulo_64_bits};
ghost use Rattle.cax64_sink.specs.Sink.{State};
ghost use Rattle.cax64_sink.specs.declared.DeferredTarget.{DeferredTarget};
ghost use Rattle.std.specs.Prelude.{Option};
ghost use Rattle.x64_code_buffer.specs.Laid.{Piece, led_to};
ghost use Rattle.x64_layout.specs.Layout.{place_in};
ghost use Rattle.x64_assemble.specs.Assembled.{Assembled, PutsList, distance_in, spot_of};
ghost use Rattle.x64_assemble.specs.Listed.{Listed};
ghost use Rattle.x64_assemble.specs.declared.item.Item.{Item};

/// A jump of a list to a label of the list leads to the position that the label is bound to: where the n-th span ends, its
/// distance added. It does nothing: its clause is the law.
pub fn a_jump_leads_to_its_label<I>()
    ensures { (meant : I → Listed) (items : List (Item I)) (pieces : List Piece) (before after : State) (old new : DeferredTarget → Option ℕ) (put : Assembled meant items pieces before after old new) (n label spot : ℕ) → spot_of label items ≡ Some spot → led_to (Some (distance_in put.lens n spot)) (length before.bytes + place_in put.lens (n + 1)) ≡ option_map (λ place. modulo_64_bits (pos place)) (new (DeferredTarget.Label (record { 0 = label }))) }
{}

/// The same in any buffer, whatever stands in it.
pub fn a_jump_leads_in_any_buffer<I>()
    ensures { (meant : I → Listed) (items : List (Item I)) (before after : State) (old new : DeferredTarget → Option ℕ) (put : PutsList meant items before after old new) (n label spot : ℕ) → spot_of label items ≡ Some spot → led_to (Some (distance_in put.lens n spot)) (length before.bytes + place_in put.lens (n + 1)) ≡ option_map (λ place. modulo_64_bits (pos place)) (new (DeferredTarget.Label (record { 0 = label }))) }
{}
