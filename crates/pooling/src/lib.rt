// Two readings of one block, pooled before the repair (document 02, request 8): each place gets what the two together know of it.
#![tactic(auto)]

ghost use Rattle.std.specs.Prelude.{◌≡◌};
ghost use Rattle.refusals.specs.Refusal.{answer_number};
ghost use Rattle.pooling.specs.Pool.{with_marks, pooled};
ghost use Rattle.pooling.specs.Inner.{known, both_know};
ghost use Rattle.pooling.specs.Answer.{pool_answer, pool_after, pool_refusal};

use layout::BLOCK_SIZE;
use refusals::Refusal;

// What a reading knows of a place: its byte, if that is not marked.
fn known(byte: u8, mark: u8) -> Option<u8>
    ensures { result ≡ known byte mark }
{
    if mark == 1 { None } else { Some(byte) }
}

// What two readings know of one place: what one of them knows alone, or the byte on which they agree.
fn both_know(one: Option<u8>, other: Option<u8>) -> Option<u8>
    ensures { result ≡ both_know one other }
{
    match (one, other) {
        (None, known) => known,
        (known, None) => known,
        (Some(x), Some(y)) => if x == y { Some(x) } else { None },
    }
}

// Each place of the first reading becomes what both know of it: the byte 0, marked, where they know nothing.
fn pool_places(
    bytes: &mut [u8; BLOCK_SIZE],
    erasures: &mut [u8; BLOCK_SIZE],
    second: &[u8; BLOCK_SIZE],
    marks: &[u8; BLOCK_SIZE],
)
    ensures bytes_after { bytes.new
        ≡ (pooled (with_marks bytes.old erasures.old)
        (with_marks second.now marks.now)).bytes }
    ensures erasures_after { erasures.new
        ≡ (pooled (with_marks bytes.old erasures.old)
        (with_marks second.now marks.now)).erasures }
{
    // An index for the four: zipped, they are no plainer.
    for i in 0..BLOCK_SIZE {
        let place = both_know(known(bytes[i], erasures[i]), known(second[i], marks[i]));
        bytes[i] = place.unwrap_or(0);
        erasures[i] = u8::from(place.is_none());
    }
}

// Pools two readings of one block, each of 37,856 bytes and as many marks, 1 where a byte is marked. The result replaces the first, `bytes` and `erasures`;
// the second, `second` and `marks`, stays. Where something is refused, everything is left as it was.
pub fn pool(
    bytes: &mut [u8],
    erasures: &mut [u8],
    second: &[u8],
    marks: &[u8],
) -> Result<(), Refusal>
    ensures value { result
        ≡ pool_answer (with_marks bytes.old erasures.old)
        (with_marks second.now marks.now) }
    ensures result_value { answer_number result
        ≡ pool_refusal (with_marks bytes.old erasures.old)
        (with_marks second.now marks.now) }
    ensures bytes_after { bytes.new
        ≡ (pool_after (with_marks bytes.old erasures.old)
        (with_marks second.now marks.now)).bytes }
    ensures erasures_after { erasures.new
        ≡ (pool_after (with_marks bytes.old erasures.old)
        (with_marks second.now marks.now)).erasures }
{
    let Some(bytes) = bytes.as_mut_array::<BLOCK_SIZE>() else {
        return Err(Refusal::Length);
    };
    let Some(erasures) = erasures.as_mut_array::<BLOCK_SIZE>() else {
        return Err(Refusal::Length);
    };
    let Some(second) = second.as_array::<BLOCK_SIZE>() else {
        return Err(Refusal::Length);
    };
    let Some(marks) = marks.as_array::<BLOCK_SIZE>() else {
        return Err(Refusal::Length);
    };
    if !(repairer::marks_fit(erasures) && repairer::marks_fit(marks)) {
        return Err(Refusal::Mark);
    }
    pool_places(bytes, erasures, second, marks);
    Ok(())
}
