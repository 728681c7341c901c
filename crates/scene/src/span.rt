// Where the bytes of a refused record begin and end.
ghost use Rattle.std.specs.Prelude.{◌≡◌};
ghost use Rattle.scene.specs.Format.{length_of};
ghost use Rattle.scene.specs.Numbers.{number_of};
ghost use Rattle.scene.specs.Reading.{refused_at};
ghost use Rattle.scene.specs.Inner.{Spans, ending_of};

use crate::format::Kind;
use crate::{Refusal, Unread};
use std::ops::Range;

// How many bytes a record has whose kind's byte this is; of an unknown kind that byte alone counts.
#[tactic(auto, unfolding(crate::specs::Format::length_of))]
fn record_length(byte: u8) -> usize
    ensures { result ≡ length_of byte }
{
    Kind::try_from(byte).map_or(1, Kind::length)
}

// The bytes of a record that is refused at an offset: its full length or what remains of it, and everything left for 11.
#[tactic(auto, using(crate::proofs::Numbered::numbered), unfolding(crate::specs::Span::span_start, crate::specs::Span::span_length))]
fn refused_span(scene: &[u8], refusal: Refusal, offset: usize) -> Range<usize>
    ensures { Spans scene.now (refused_at (number_of refusal) offset) result }
{
    let Some(byte) = scene.get(offset) else {
        return 0..0;
    };
    if refusal == Refusal::BytesLeft {
        return offset..scene.len();
    }
    offset..offset + record_length(*byte).min(scene.len() - offset)
}

// The bytes of the refused record after a reading; none where no record is refused.
#[tactic(auto, unfolding(crate::specs::Span::span_start, crate::specs::Span::span_length))]
pub(crate) fn span_of(scene: &[u8], reading: Result<usize, Unread>) -> Range<usize>
    ensures { Spans scene.now (ending_of reading) result }
{
    match reading {
        Err(Unread::Refused(refusal, offset)) => refused_span(scene, refusal, offset),
        _ => 0..0,
    }
}
