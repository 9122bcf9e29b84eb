// The frames of a sector one after the other, and the closing code.
ghost use Rattle.std.specs.Prelude.{◌≡◌, not, cond, ◌++◌, ◌+◌, ◌*◌, ◌≤◌, max, length, take};
ghost use Rattle.octets.specs.Halves.{packed};
ghost use Rattle.layout.specs.Lengths.{frame_stream, sector_frames};
ghost use Rattle.levels.specs.Inner.{Room};
ghost use Rattle.streams.specs.Frames.{sector_of, closing_of};
ghost use Rattle.streams.specs.Peak.{peak_of};
ghost use Rattle.streams.specs.Streams.{one_lower, opened};
ghost use Rattle.writer.specs.Inner.{frame_at, FrameBegins, SectorBegins};

use annexg::SyncCodes;
use laying::{Side, Tables};
use layout::{
    CLOSING_SIZE, FRAME_BYTES, FRAME_STREAM, FrameCodes, SECTOR_FRAMES, SECTOR_SIZE, SECTOR_STREAM,
};
use levels::{Levels, Running};

// The running record after a sector, and the peak so far (document 02, request 4).
#[derive(Clone, Copy)]
pub(crate) struct Reached {
    pub(crate) running: Running,
    pub(crate) peak: u64,
}

// The part of the buffer whose stream is shown: Stream 1's where it is the lower.
fn select<'a>(stream1: &'a [u8], stream2: &'a [u8], first: bool) -> &'a [u8]
    requires frame_stream_in_bounds { frame_stream ≤ length stream1.now }
    requires frame_stream_in_bounds_2 { frame_stream ≤ length stream2.now }
    ensures { result.now ≡ take frame_stream (cond first stream1.now stream2.now) }
{
    if first {
        return &stream1[..FRAME_STREAM];
    }
    &stream2[..FRAME_STREAM]
}

// Frame k of a sector into its place, by tables and two frame buffers that are lent.
fn frame(
    tables: &Tables,
    codes: &FrameCodes,
    running: Running,
    k: usize,
    bytes: &[u8; SECTOR_SIZE],
    stream1: &mut [u8; FRAME_STREAM],
    stream2: &mut [u8; FRAME_STREAM],
    out: &mut [u8; SECTOR_STREAM],
) -> Running
    requires { FrameBegins running k }
    ensures running { result ≡ (frame_at running bytes.now k).running }
    ensures laid { take (frame_stream * k + frame_stream) out.new
        ≡ take (frame_stream * k) out.old ++ packed (frame_at running bytes.now k).halves }
{
    let from = FRAME_BYTES * k;
    let to = from + FRAME_BYTES;
    let part = bytes[from..to].as_array::<FRAME_BYTES>().unwrap();
    let shown = frames::frame(tables, running, codes.of(k), part, stream1, stream2);
    octets::put(out, FRAME_STREAM * k, select(stream1, stream2, shown.first));
    shown.running
}

// The frames of a sector, by tables and two frame buffers that are lent, and the peak over their ends from the one held before.
fn frames(
    tables: &Tables,
    start: Running,
    held: u64,
    bytes: &[u8; SECTOR_SIZE],
    stream1: &mut [u8; FRAME_STREAM],
    stream2: &mut [u8; FRAME_STREAM],
    out: &mut [u8; SECTOR_STREAM],
) -> Reached
    requires { SectorBegins start }
    ensures running { result.running ≡ (sector_of start bytes.now).running }
    ensures peak { result.peak
        ≡ max held (peak_of start (sector_of start bytes.now).halves sector_frames) }
    ensures laid { out.new ≡ packed (sector_of start bytes.now).halves }
{
    let codes = FrameCodes::new();
    let mut running = start;
    let mut peak = held;
    for k in 0..SECTOR_FRAMES {
        running = frame(tables, &codes, running, k, bytes, stream1, stream2, out);
        peak = peak.max(levels::absolute(running.dsv));
    }
    Reached { running, peak }
}

// A sector from a running record and the peak so far.
pub(crate) fn sector(
    start: Running,
    held: u64,
    bytes: &[u8; SECTOR_SIZE],
    out: &mut [u8; SECTOR_STREAM],
) -> Reached
    requires { SectorBegins start }
    ensures running { result.running ≡ (sector_of start bytes.now).running }
    ensures peak { result.peak
        ≡ max held (peak_of start (sector_of start bytes.now).halves sector_frames) }
    ensures laid { out.new ≡ packed (sector_of start bytes.now).halves }
{
    let tables = Tables::new();
    let mut stream1 = [0u8; FRAME_STREAM];
    let mut stream2 = [0u8; FRAME_STREAM];
    frames(&tables, start, held, bytes, &mut stream1, &mut stream2, out)
}

// The choice of the closing code (document 02, request 7): Secondary just where that SY0 of the class leaves a lower absolute DSV after its 32 bits than the Primary.
fn closing_choice(syncs: &SyncCodes, levels: &Levels, start: Running) -> bool
    requires { Room start 32 }
    ensures { result ≡ not (one_lower (opened start 0)) }
{
    let primary = start.sync(levels, syncs.code(start.state, 0, false));
    let secondary = start.sync(levels, syncs.code(start.state, 0, true));
    !frames::lower(primary.dsv, secondary.dsv)
}

// The closing code from a running record: SY0, by the DSV. It needs two of the writer's tables, and makes no others.
pub(crate) fn closing(start: Running, out: &mut [u8; CLOSING_SIZE]) -> Running
    requires { Room start 32 }
    ensures running { result ≡ (closing_of start).running }
    ensures laid { out.new ≡ packed (closing_of start).halves }
{
    let syncs = SyncCodes::new();
    let levels = Levels::new();
    let choice = closing_choice(&syncs, &levels, start);
    Side::sync(&syncs, &levels, start, 0, choice, out).running
}
