// The sector reader (document 01, 'Reading a word, and the repair'): 4,838 bytes of stream, a sector and the two bytes after it, to 2,366 bytes, as many marks
// (document 02, request 2) and two tallies. The field's word for a marked byte is an erasure. The tables are made once a call of `read_sector` and lent from there
// on; a caller that reads many sectors makes them itself and calls `read_sector_with`. And the closing code after the last sector of a run, judged.
#![tactic(auto)]

ghost use Rattle.std.specs.Prelude.{◌≡◌, ◌<◌, length, count_by};
ghost use Rattle.std.specs.List.{range_with_len};
ghost use Rattle.channel.specs.Block.{read_sector, erasures_of_sector};
ghost use Rattle.layout.specs.Lengths.{sector_frames};
ghost use Rattle.refusals.specs.Refusal.{answer_number};
ghost use Rattle.reader.specs.Closing.{closing_holds};
ghost use Rattle.reader.specs.Sector.{lost_sync, unknown_tally, sector_answer, sector_after, erasures_after, sector_read_refusal};

use annexg::{CodeWords, SyncCodes};
use layout::{
    CLOSING_SIZE, FRAME_BYTES, FRAME_HALVES, FrameCodes, SECTOR_FRAMES, SECTOR_READ, SECTOR_SIZE,
};
use refusals::Refusal;
use wordindex::WordReader;

// The two tallies of a sector: its unknown words, and its SYNC places that hold none of the four codes due there.
#[derive(Clone, Copy, PartialEq, Eq, Debug)]
pub struct SectorTally {
    pub unknown: u32,
    pub sync: u32,
}

// What a reader looks up: the Code Words with their index, and the SYNC Codes. They are lent, as `WordReader` says.
#[derive(Clone, Copy)]
pub struct ReadingTables<'w, 's> {
    pub words: WordReader<'w>,
    pub syncs: &'s SyncCodes,
}

// ---- the words

// Every word is judged with the half word after it: for the last word of a frame that is the first of the next SYNC place, and for the sector's last word the
// two bytes after the sector.
fn read_bytes(
    words: &WordReader<'_>,
    stream: &[u8; SECTOR_READ],
    out: &mut [u8; SECTOR_SIZE],
    erasures: &mut [u8; SECTOR_SIZE],
) -> u32
    ensures value { result ≡ unknown_tally stream.now }
    ensures out_after { out.new ≡ read_sector stream.now }
    ensures erasures_after { erasures.new ≡ erasures_of_sector stream.now }
{
    let mut unknown: u32 = 0;
    for i in 0..SECTOR_SIZE {
        // i / 91 * 93 + 2 + i % 91
        let k = i + 2 * (i / FRAME_BYTES) + 2;
        let word = octets::half_at(stream, k);
        let following = octets::half_at(stream, k + 1);
        let read = words.read(word, following);
        // an unknown word gives byte 0 and is marked
        out[i] = read.unwrap_or(0);
        erasures[i] = u8::from(read.is_none());
        unknown += u32::from(read.is_none());
    }
    unknown
}

// ---- the SYNC places

// The SYNC place of frame f holds none of the four codes due there.
#[tactic(auto, unfolding(crate::specs::Sector::lost_sync))]
fn is_lost(syncs: &SyncCodes, codes: &FrameCodes, stream: &[u8; SECTOR_READ], f: usize) -> bool
    requires { f < sector_frames }
    ensures { result ≡ lost_sync stream.now f }
{
    let k = FRAME_HALVES * f;
    let first = octets::half_at(stream, k);
    let second = octets::half_at(stream, k + 1);
    !syncs.is_sync(codes.of(f), first, second)
}

fn lost_syncs(syncs: &SyncCodes, stream: &[u8; SECTOR_READ]) -> u32
    ensures { result ≡ count_by (lost_sync stream.now) (range_with_len 0 sector_frames) }
{
    let codes = FrameCodes::new();
    let lost = (0..SECTOR_FRAMES).filter(|f| is_lost(syncs, &codes, stream, *f));
    lost.count() as u32
}

// ---- the sector

// The sector reader, for a caller that has the tables at hand. Where it refuses, both buffers are left as they were.
#[tactic(auto, using(crate::proofs::Counts::sync_tally_counts), unfolding(crate::specs::Sector::sector_answer, crate::specs::Sector::sector_after, crate::specs::Sector::erasures_after, crate::specs::Sector::sector_read_refusal, crate::specs::Sector::sector_fits))]
pub fn read_sector_with(
    tables: &ReadingTables<'_, '_>,
    stream: &[u8],
    out: &mut [u8],
    erasures: &mut [u8],
) -> Result<SectorTally, Refusal>
    ensures value { result
        ≡ sector_answer stream.now (length out.old) (length erasures.old) }
    ensures result_value { answer_number result
        ≡ sector_read_refusal stream.now (length out.old) (length erasures.old) }
    ensures out_after { out.new
        ≡ sector_after stream.now out.old (length erasures.old) }
    ensures erasures_after { erasures.new
        ≡ erasures_after stream.now (length out.old) erasures.old }
{
    let stream = stream.as_array::<SECTOR_READ>().ok_or(Refusal::Length)?;
    let out = out.as_mut_array::<SECTOR_SIZE>().ok_or(Refusal::Length)?;
    let erasures = erasures
        .as_mut_array::<SECTOR_SIZE>()
        .ok_or(Refusal::Length)?;
    let unknown = read_bytes(&tables.words, stream, out, erasures);
    let sync = lost_syncs(tables.syncs, stream);
    Ok(SectorTally { unknown, sync })
}

// The sector reader.
pub fn read_sector(
    stream: &[u8],
    out: &mut [u8],
    erasures: &mut [u8],
) -> Result<SectorTally, Refusal>
    ensures value { result
        ≡ sector_answer stream.now (length out.old) (length erasures.old) }
    ensures result_value { answer_number result
        ≡ sector_read_refusal stream.now (length out.old) (length erasures.old) }
    ensures out_after { out.new
        ≡ sector_after stream.now out.old (length erasures.old) }
    ensures erasures_after { erasures.new
        ≡ erasures_after stream.now (length out.old) erasures.old }
{
    let words = CodeWords::new();
    let index = wordindex::word_index(&words);
    let syncs = SyncCodes::new();
    let reader = WordReader {
        words: &words,
        index: &index,
    };
    let tables = ReadingTables {
        words: reader,
        syncs: &syncs,
    };
    read_sector_with(&tables, stream, out, erasures)
}

// ---- the closing code

// The bytes are one of SY0's four codes, and no more.
#[tactic(auto, unfolding(crate::specs::Closing::closing_holds))]
pub fn closing_holds(bytes: &[u8]) -> bool
    ensures { result ≡ closing_holds bytes.now }
{
    if bytes.len() != CLOSING_SIZE {
        return false;
    }
    let first = octets::half_at(bytes, 0);
    let second = octets::half_at(bytes, 1);
    SyncCodes::new().is_sync(0, first, second)
}
