// Data Frames (ECMA-268, clause 16), and the checks of a frame that was read, still scrambled. Frames go in and come back by value; the table of
// logarithms is lent, so that no frame makes it anew. The table of EDC is copied once a frame, which takes a small part of the time of the division.
#![tactic(auto)]

ghost use Rattle.std.specs.Prelude.{◌≡◌};
ghost use Rattle.refusals.specs.Refusal.{answer_number};
ghost use Rattle.dataframe.specs.Frame.{head_of, data_frame};
ghost use Rattle.dataframe.specs.Checks.{number_of, unscrambled, ied_passes, id_passes, edc_passes, frame_refusal};

use edc::EdcTable;
use field::Logs;
use layout::{EDC_PLACE, FRAME_MAIN_SIZE, FRAME_SIZE, HEAD_SIZE};
use refusals::Refusal;

// ---- the Data Frame (clause 16)

// ID, IED and CPR_MAI.
fn head(logs: &Logs, info: u8, number: u32) -> [u8; HEAD_SIZE]
    ensures { result ≡ head_of info number }
{
    let [_, a, b, c] = number.to_be_bytes();
    let [x, y] = parity::parity2_with(logs, &[info, a, b, c]);
    [info, a, b, c, x, y, 0, 0, 0, 0, 0, 0]
}

// The Data Frame of a sector over its 2,048 main data bytes.
pub fn data_frame(
    logs: &Logs,
    main: &[u8; FRAME_MAIN_SIZE],
    info: u8,
    number: u32,
) -> [u8; FRAME_SIZE]
    ensures { result ≡ data_frame main.now info number }
{
    let mut frame = [0; FRAME_SIZE];
    octets::put(&mut frame, 0, &head(logs, info, number));
    octets::put(&mut frame, HEAD_SIZE, main);
    let e = EdcTable::new().edc(&frame[0..EDC_PLACE]);
    octets::put(&mut frame, EDC_PLACE, &e);
    frame
}

// ---- the way back

// The number of the sector, from its frame's ID.
pub fn sector_number(frame: &[u8; FRAME_SIZE]) -> u32
    ensures { result ≡ number_of frame.now }
{
    u32::from_be_bytes([0, frame[1], frame[2], frame[3]])
}

// A frame as it was before scrambling.
pub fn unscramble(frame: [u8; FRAME_SIZE]) -> [u8; FRAME_SIZE]
    ensures { result ≡ unscrambled frame }
{
    let number = sector_number(&frame);
    scrambling::scramble(frame, number)
}

// Check 4: IED of ID.
fn ied_passes(logs: &Logs, frame: &[u8; FRAME_SIZE]) -> bool
    ensures { result ≡ ied_passes frame.now }
{
    &frame[4..6] == parity::parity2_with(logs, &frame[..4]).as_slice()
}

// Check 5 of frame k, where frame 0 has the number first, a multiple of 16, and the Sector Information info.
#[tactic(auto, unfolding(crate::specs::Checks::id_passes))]
fn id_passes(frame: &[u8; FRAME_SIZE], first: u32, info: u8, k: u32) -> bool
    ensures { result ≡ id_passes first info k frame.now }
{
    let number = sector_number(frame);
    (k != 0 || number % 16 == 0)
        && number.checked_sub(k) == Some(first)
        && frame[0] & 0xD2 == 0
        && frame[0] == info
}

// Check 6: EDC of the frame as it was before scrambling.
fn edc_passes(frame: [u8; FRAME_SIZE]) -> bool
    ensures { result ≡ edc_passes frame }
{
    let plain = unscramble(frame);
    let e = EdcTable::new().edc(&plain[0..EDC_PLACE]);
    &frame[EDC_PLACE..FRAME_SIZE] == e.as_slice()
}

// The checks 4, 5 and 6 of frame k, as it was read: the lowest number that applies.
#[tactic(auto, unfolding(crate::specs::Checks::frame_refusal))]
pub fn check_frame(
    logs: &Logs,
    frame: [u8; FRAME_SIZE],
    first: u32,
    info: u8,
    k: u32,
) -> Result<(), Refusal>
    ensures { answer_number result ≡ frame_refusal first info k frame }
{
    if !ied_passes(logs, &frame) {
        return Err(Refusal::Ied);
    }
    if !id_passes(&frame, first, info, k) {
        return Err(Refusal::Id);
    }
    if !edc_passes(frame) {
        return Err(Refusal::Edc);
    }
    Ok(())
}
