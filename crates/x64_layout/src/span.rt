//! What is laid out: spans of one length or two.

ghost use Rattle.std.specs.Prelude.{◌↔◌, IsTrue};
ghost use Rattle.x64_layout.specs.Layout.{AreSpans, IsSpan};

/// A span of a row: an instruction, or a jump.
#[derive(Clone, Copy, Debug, PartialEq)]
pub struct Span {
    /// The least length, in bytes.
    pub least: u8,
    /// How many bytes more the longer form has. It is 0 where there is but one form.
    pub more: u8,
    /// Where the shorter form jumps to: to the span of this number, or to the end of all, whose number is that of the
    /// spans. The shorter form reaches from 128 bytes before the end of its span to 127 bytes behind it (Intel SDM, volume
    /// 2, `JMP` and `Jcc`: `rel8`).
    pub spot: Option<u32>,
}

/// How many spans are laid out at most: so many of 13 bytes each have less than 2 to the 31.
pub const MOST_SPANS: usize = 165_191_049;

/// Whether spans can be laid out, as `least_layout` asks: there are at most [`MOST_SPANS`], each of at most 13 bytes, and each
/// jumps to a span that is there or to the end, if it jumps.
pub fn are_spans(spans: &[Span]) -> bool
    ensures { IsTrue result ↔ AreSpans spans.now }
{
    let count = spans.len();
    count <= MOST_SPANS && spans.iter().all(|span| is_span(*span, count))
}

/// Whether a span can stand among so many.
fn is_span(span: Span, count: usize) -> bool
    ensures { IsTrue result ↔ IsSpan count span }
{
    u32::from(span.least) + u32::from(span.more) <= 13
        && span.spot.is_none_or(|spot| spot as usize <= count)
}
