// The unstarred trials of document 01's table, the refusals of a run (document 02, request 1), and what a second formatter made (tests/), run through the library.
// It prints a line a case; `stdout` beside this folder holds what is due. The cases are in `data/`.
#![tactic(auto)]

mod compare;

use codes::Outcome;
use layout::{
    BLOCK_SIZE, CLOSING_SIZE, LAST_FIRST, MAIN_SIZE, ROW_SIZE, RUN_SECTORS, SECTOR_SIZE,
    SECTOR_STREAM, SECTORS_STREAM, STREAM_SIZE,
};
use reedsolomon::Row;
use refusals::{Refusal, answer_number};
use std::io::Read;
use std::rt::Files;
use std::{fs, io};
use writer::Record;

fn main(rt: HostRuntime) -> io::Result<()> {
    trial13(&rt)?;
    blocks(&rt)?;
    trial15(&rt)?;
    sequences(&rt)?;
    informations(&rt)?;
    lengths(&rt)?;
    streams(&rt)?;
    written_blocks(&rt)?;
    far_out(&rt)?;
    trial14(&rt)?;
    refused_records(&rt)
}

// ---- files and lines

// A whole file, which is as long as the buffer. Where it is missing or short, what is left of the buffer stays, and what is printed goes by that.
fn load(rt: &(impl Files + Print), path: &str, buf: &mut [u8]) -> io::Result<()> {
    let Ok(mut file) = fs::open(rt, path) else {
        return println!(rt; "NO FILE {path}");
    };
    let n = intake::read_full(&mut file, buf)?;
    let extra = intake::read_full(&mut file, &mut [0])?;
    if n != buf.len() {
        print!(rt; "TOO SHORT {path}")?;
    }
    if extra != 0 {
        print!(rt; "TOO LONG {path}")?;
    }
    Ok(())
}

fn verdict(ours: &[u8], due: &[u8]) -> &'static str {
    if ours == due { "as due" } else { "NOT AS DUE" }
}

fn print_left(rt: &impl Print, after: &[u8], before: &[u8]) -> io::Result<()> {
    let done = if after == before { "left" } else { "written" };
    println!(rt; ", buffer {done}")
}

// ---- trial 13: five wrong bytes in a row, repaired; six, only as the rule says

// Each case is three rows: the code row, the row as read, the row due.
fn trial13(rt: &(impl Files + Print)) -> io::Result<()> {
    let Ok(mut file) = fs::open(rt, "trial13") else {
        return println!(rt; "NO FILE trial13");
    };
    for _ in 0..8 {
        row_case(rt, &mut file)?;
    }
    Ok(())
}

// Three calls, since an array of three rows that a function fills loses the rows' lengths (tried).
fn row_case(rt: &impl Print, file: &mut impl Read) -> io::Result<()> {
    let sent = next_row(file)?;
    let bytes = next_row(file)?;
    let due = next_row(file)?;
    let outcome = Outcome::Clean;
    let mended = reedsolomon::correct_row(&[0; ROW_SIZE], Row { bytes, outcome });
    println!(rt;
        "trial 13: {} bytes wrong, {}, then {} bytes wrong, {}",
        compare::differing(&sent, &bytes),
        outcome_text(mended.outcome),
        compare::differing(&sent, &mended.bytes),
        verdict(&mended.bytes, &due)
    )
}

fn next_row(file: &mut impl Read) -> io::Result<[u8; ROW_SIZE]> {
    let mut row = [0; ROW_SIZE];
    intake::read_full(file, &mut row)?;
    Ok(row)
}

fn outcome_text(outcome: Outcome) -> &'static str {
    match outcome {
        Outcome::Clean => "a code row",
        Outcome::Corrected => "changed",
        Outcome::Uncorrectable => "past help",
    }
}

// ---- the block maker. What a buffer holds at first matters only where a refusal is to leave it

fn blocks(rt: &(impl Files + Print)) -> io::Result<()> {
    block_case(rt, "b1.main", "b1.block", 0x030000, 0x00)?;
    block_case(rt, "b2.main", "b2.block", 0x000000, 0x2D)?;
    block_case(rt, "z.main", "z.block", 0x030000, 0x00)
}

fn block_case(
    rt: &(impl Files + Print),
    main_path: &str,
    block_path: &str,
    first: u32,
    info: u8,
) -> io::Result<()> {
    let mut main = [0; MAIN_SIZE];
    let mut due = [165; BLOCK_SIZE];
    let mut out = [165; BLOCK_SIZE];
    load(rt, main_path, &mut main)?;
    load(rt, block_path, &mut due)?;
    let answer = answer_number(eccblock::encode_block(&main, None, first, info, &mut out));
    println!(rt; "{main_path}: answer {answer}, {}", verdict(&out, &due))
}

// The number of the first sector: 16,777,200 passes; 16,777,216 and 8 get 2.
fn trial15(rt: &impl Print) -> io::Result<()> {
    for first in [LAST_FIRST, 16777216, 8] {
        number_case(rt, first)?;
    }
    Ok(())
}

fn number_case(rt: &impl Print, first: u32) -> io::Result<()> {
    let mut out = [165; BLOCK_SIZE];
    let before = out;
    let answer = eccblock::encode_block(&[0; MAIN_SIZE], None, first, 0, &mut out);
    print!(rt;
        "trial 15: first number {first}, answer {}",
        answer_number(answer)
    )?;
    print_left(rt, &out, &before)
}

// Blocks that follow on (document 02, request 1): the previous one's first number plus 16, and no wrap-around.
fn sequences(rt: &impl Print) -> io::Result<()> {
    let cases = [
        (0, 16, 0),
        (0, 0, 0),
        (0, 32, 0),
        (16, 0, 0),
        (16777184, LAST_FIRST, 0),
        (LAST_FIRST, LAST_FIRST, 0),
        (4294967280, 0, 0),
        (0, 8, 0xFF),
        (0, 32, 0xFF),
        (8, 24, 0),
    ];
    for (previous, first, info) in cases {
        sequence_case(rt, previous, first, info)?;
    }
    Ok(())
}

fn sequence_case(rt: &impl Print, previous: u32, first: u32, info: u8) -> io::Result<()> {
    let mut out = [165; BLOCK_SIZE];
    let before = out;
    let answer = eccblock::encode_block(&[0; MAIN_SIZE], Some(previous), first, info, &mut out);
    print!(rt;
        "previous number {previous}, first number {first}, Sector Information {info}, answer {}",
        answer_number(answer)
    )?;
    print_left(rt, &out, &before)
}

// The answer to each Sector Information byte, 16 to a line; an exclamation mark where a refusal wrote into the buffer.
fn informations(rt: &impl Print) -> io::Result<()> {
    println!(rt; "Sector Information 00 to FF:")?;
    for info in 0..=255 {
        information_case(rt, info)?;
        if info % 16 == 15 {
            println!(rt;)?;
        }
    }
    Ok(())
}

fn information_case(rt: &impl Print, info: u8) -> io::Result<()> {
    let mut out = [165; BLOCK_SIZE];
    let before = out;
    let answer = eccblock::encode_block(&[0; MAIN_SIZE], None, 0, info, &mut out);
    print!(rt; "{}", answer_number(answer))?;
    if answer.is_err() && out != before {
        print!(rt; "!")?;
    }
    Ok(())
}

// Buffers of other lengths, with whatever else is wrong: the lowest number.
fn lengths(rt: &impl Print) -> io::Result<()> {
    let cases = [
        (32767, BLOCK_SIZE, 0, 0),
        (32769, BLOCK_SIZE, 0, 0),
        (0, BLOCK_SIZE, 0, 0),
        (MAIN_SIZE, 37855, 0, 0),
        (MAIN_SIZE, 37857, 0, 0),
        (MAIN_SIZE, 0, 0, 0),
        (32767, BLOCK_SIZE, 8, 0xFF),
        (MAIN_SIZE, BLOCK_SIZE, 8, 0xFF),
        (MAIN_SIZE, BLOCK_SIZE, 16, 0xFF),
        (MAIN_SIZE, BLOCK_SIZE, 16, 0x2D),
    ];
    for (n, m, first, info) in cases {
        length_case(rt, n, m, first, info)?;
    }
    Ok(())
}

// The first n bytes of main data, and the first m of a buffer.
fn length_case(rt: &impl Print, n: usize, m: usize, first: u32, info: u8) -> io::Result<()> {
    let main = [0; 32769];
    let mut out = [165; 37857];
    let before = out;
    let (Some(part), Some(room)) = (main.get(..n), out.get_mut(..m)) else {
        return println!(rt; "NOT SO LONG {n} {m}");
    };
    let answer = answer_number(eccblock::encode_block(part, None, first, info, room));
    print!(rt;
        "lengths {n} {m}, first number {first}, Sector Information {info}, answer {answer}"
    )?;
    print_left(rt, &out, &before)
}

// ---- streams of code bits: their zero runs, and their bytes read back

fn streams(rt: &(impl Files + Print)) -> io::Result<()> {
    let cases = [
        ("b1.rstream", "b1.block"),
        ("b2.rstream", "b2.block"),
        ("b1.stream", "b1.block"),
        ("b2.stream", "b2.block"),
        ("z.stream", "z.block"),
    ];
    for (stream_path, block_path) in cases {
        block_stream(rt, stream_path, block_path)?;
    }
    Ok(())
}

fn block_stream(rt: &(impl Files + Print), stream_path: &str, block_path: &str) -> io::Result<()> {
    let mut stream = [0; STREAM_SIZE];
    let mut bytes = [165; BLOCK_SIZE];
    load(rt, stream_path, &mut stream)?;
    load(rt, block_path, &mut bytes)?;
    print_reading(rt, stream_path, &stream, &bytes, 0)
}

fn print_reading(
    rt: &impl Print,
    path: &str,
    stream: &[u8],
    bytes: &[u8],
    after: u16,
) -> io::Result<()> {
    let runs = if zeroruns::zero_runs_hold(stream) {
        "zero runs hold"
    } else {
        "ZERO RUNS DO NOT HOLD"
    };
    let n = compare::read_back(stream, bytes, after);
    println!(rt; "{path}: {runs}, {n} bytes read back")
}

// ---- the writer

// A record with the lowest peak that number 9 lets its DSV have.
fn record(state: u8, level: u8, dsv: i64, sectors: u32, closed: bool) -> Record {
    let size = dsv.unsigned_abs();
    let margin = if closed { 32 } else { 0 };
    let peak = size.saturating_sub(margin);
    Record {
        state,
        level,
        dsv,
        sectors,
        closed,
        peak,
        marked: false,
        mark: 0,
    }
}

fn print_record(rt: &impl Print, w: Record) -> io::Result<()> {
    print!(rt; " dsv {} state {} level {}", w.dsv, w.state, w.level)
}

fn print_sectors(rt: &impl Print, w: Record) -> io::Result<()> {
    print_record(rt, w)?;
    print!(rt; " sectors {} peak {}", w.sectors, w.peak)
}

fn written_blocks(rt: &(impl Files + Print)) -> io::Result<()> {
    written_block(rt, "b1.block", "b1.stream")?;
    written_block(rt, "b2.block", "b2.stream")?;
    written_block(rt, "z.block", "z.stream")
}

// Sixteen sectors and the closing code, with the record after each.
fn written_block(rt: &(impl Files + Print), block_path: &str, stream_path: &str) -> io::Result<()> {
    let mut block = [165; BLOCK_SIZE];
    let mut due = [0; STREAM_SIZE];
    let mut out = [0; STREAM_SIZE];
    load(rt, block_path, &mut block)?;
    load(rt, stream_path, &mut due)?;
    println!(rt; "{stream_path} written:")?;
    write_stream(rt, &block, &mut out)?;
    println!(rt; "{}", verdict(&out, &due))
}

// A line for each sector, as in a `.records` file.
fn write_stream(
    rt: &impl Print,
    block: &[u8; BLOCK_SIZE],
    out: &mut [u8; STREAM_SIZE],
) -> io::Result<()> {
    let mut w = writer::new();
    let (sectors, closing) = out.split_at_mut(SECTORS_STREAM);
    let parts = block
        .chunks_exact(SECTOR_SIZE)
        .zip(sectors.chunks_exact_mut(SECTOR_STREAM));
    for (k, (bytes, part)) in (1..).zip(parts) {
        w = try_and_take(w, bytes, part).unwrap_or(w);
        print!(rt; "sector {k:2}")?;
        print_record(rt, w)?;
        println!(rt;)?;
    }
    w = writer::close(w, closing).unwrap_or(w);
    print!(rt; "closed   ")?;
    print_record(rt, w)?;
    println!(rt;)
}

// A sector by a trial and a take.
fn try_and_take(w: Record, bytes: &[u8], out: &mut [u8]) -> Result<Record, Refusal> {
    let tried = writer::trial(w, bytes, out)?;
    writer::take(tried, bytes, out)
}

// Sectors that drive the DSV far out.
fn far_out(rt: &(impl Files + Print)) -> io::Result<()> {
    sector_case(rt, "st0.sector", "st0.stream", record(1, 0, -56, 3, false))?;
    sector_case(rt, "st1.sector", "st1.stream", record(2, 0, -40, 3, false))?;
    sector_case(rt, "st2.sector", "st2.stream", record(3, 0, -24, 3, false))?;
    sector_case(rt, "st3.sector", "st3.stream", record(4, 0, -8, 3, false))
}

// DSV 63 and -64 leave the SYNC Code; 64 and -65 try the other, and so do those far out, where equal absolute values leave it. By sector and stream: the State, the level
// and the DSV before it, and how many sectors the block has of which it is the next.
const TRIAL14: [(&str, &str, (u8, u8, i64, u32)); 15] = [
    (
        "trial14/t63_smaller_1.sector",
        "trial14/t63_smaller_1.stream",
        (2, 1, 47, 14),
    ),
    (
        "trial14/t63_smaller_2.sector",
        "trial14/t63_smaller_2.stream",
        (3, 0, 39, 1),
    ),
    (
        "trial14/t63_smaller_3.sector",
        "trial14/t63_smaller_3.stream",
        (1, 1, 35, 15),
    ),
    (
        "trial14/tm64_smaller_1.sector",
        "trial14/tm64_smaller_1.stream",
        (4, 1, -42, 11),
    ),
    (
        "trial14/tm64_smaller_2.sector",
        "trial14/tm64_smaller_2.stream",
        (1, 1, -60, 3),
    ),
    (
        "trial14/tm64_smaller_3.sector",
        "trial14/tm64_smaller_3.stream",
        (1, 0, -54, 13),
    ),
    (
        "trial14/t64_smaller_1.sector",
        "trial14/t64_smaller_1.stream",
        (2, 1, 60, 13),
    ),
    (
        "trial14/t64_smaller_2.sector",
        "trial14/t64_smaller_2.stream",
        (1, 1, 54, 3),
    ),
    (
        "trial14/t64_smaller_3.sector",
        "trial14/t64_smaller_3.stream",
        (2, 1, 44, 4),
    ),
    (
        "trial14/tm65_smaller_1.sector",
        "trial14/tm65_smaller_1.stream",
        (4, 0, -63, 10),
    ),
    (
        "trial14/tm65_smaller_2.sector",
        "trial14/tm65_smaller_2.stream",
        (1, 1, -67, 7),
    ),
    (
        "trial14/tm65_smaller_3.sector",
        "trial14/tm65_smaller_3.stream",
        (3, 1, -47, 4),
    ),
    (
        "trial14/t171_equal_2.sector",
        "trial14/t171_equal_2.stream",
        (1, 0, 3, 11),
    ),
    (
        "trial14/tm189_equal_1.sector",
        "trial14/tm189_equal_1.stream",
        (2, 0, 3, 8),
    ),
    (
        "trial14/tm353_equal_3.sector",
        "trial14/tm353_equal_3.stream",
        (3, 1, 3, 6),
    ),
];

fn trial14(rt: &(impl Files + Print)) -> io::Result<()> {
    for (sector_path, stream_path, (state, level, dsv, sectors)) in TRIAL14 {
        sector_case(
            rt,
            sector_path,
            stream_path,
            record(state, level, dsv, sectors, false),
        )?;
    }
    Ok(())
}

fn sector_case(
    rt: &(impl Files + Print),
    sector_path: &str,
    stream_path: &str,
    w: Record,
) -> io::Result<()> {
    let mut bytes = [0; SECTOR_SIZE];
    let mut due = [0; SECTOR_STREAM];
    let mut out = [0; SECTOR_STREAM];
    load(rt, sector_path, &mut bytes)?;
    load(rt, stream_path, &mut due)?;
    let answer = try_and_take(w, &bytes, &mut out);
    let next = answer.unwrap_or(w);
    print!(rt; "{sector_path}: answer {}", answer_number(answer))?;
    print_sectors(rt, next)?;
    println!(rt; ", {}", verdict(&out, &due))?;
    // the half word after a sector is of the class that the State prescribes
    let after = if 2 < next.state { 0x8000 } else { 0 };
    print_reading(rt, stream_path, &out, &bytes, after)
}

// ---- the answers to a sector and to closing, from records in and out of range

// State, level, DSV, sectors, closed.
const RECORDS: [(u8, u8, i64, u32, bool); 28] = [
    (0, 0, 0, 3, false),
    (5, 0, 0, 3, false),
    (1, 2, 0, 3, false),
    (1, 0, 0, 17, false),
    (1, 0, 0, 3, true),
    (1, 0, 1, 0, false),
    (1, 0, 38688, 1, false),
    (1, 0, -38688, 1, false),
    (1, 0, 38689, 1, false),
    (1, 0, -38689, 1, false),
    (4, 1, 619008, 16, false),
    (4, 1, 619009, 16, false),
    (4, 1, -619040, 16, true),
    (4, 1, -619041, 16, true),
    (1, 0, 0, 15, false),
    (1, 0, 0, 0, false),
    (1, 0, 0, 0, true),
    (1, 0, 0, 8, false),
    (1, 0, 0, 17, true),
    (2, 1, 0, 32, false),
    (1, 0, 0, 32, true),
    // the most that a run can have: 16,777,216 sectors, and 38,688 times as much of DSV
    (1, 0, 0, 16777215, false),
    (1, 0, 649076932608, RUN_SECTORS, false),
    (1, 0, -649076932609, RUN_SECTORS, false),
    (1, 0, 649076932640, RUN_SECTORS, true),
    (1, 0, -649076932641, RUN_SECTORS, true),
    (1, 0, 0, 16777217, false),
    (1, 0, 0, 16777232, true),
];

// In State 1 at level 0: DSV, sectors, closed, peak. Number 9 by the peak: below the absolute DSV, by more than 32 in a closed record, and over 38,688 times the sectors.
const PEAKS: [(i64, u32, bool, u64); 10] = [
    (-100, 1, false, 100),
    (-100, 1, false, 99),
    (100, 16, true, 68),
    (100, 16, true, 67),
    (0, 1, false, 38688),
    (0, 1, false, 38689),
    (0, 0, false, 1),
    (0, RUN_SECTORS, false, 649076932608),
    (0, RUN_SECTORS, false, 649076932609),
    (0, RUN_SECTORS, true, u64::MAX),
];

fn refused_records(rt: &impl Print) -> io::Result<()> {
    for (state, level, dsv, sectors, closed) in RECORDS {
        record_case(rt, record(state, level, dsv, sectors, closed))?;
    }
    peak_cases(rt)
}

fn peak_cases(rt: &impl Print) -> io::Result<()> {
    for (dsv, sectors, closed, peak) in PEAKS {
        let lowest = record(1, 0, dsv, sectors, closed);
        record_case(rt, Record { peak, ..lowest })?;
    }
    Ok(())
}

fn record_case(rt: &impl Print, w: Record) -> io::Result<()> {
    let bytes = [0; SECTOR_SIZE];
    let mut out = [165; SECTOR_STREAM];
    let mut four = [165; CLOSING_SIZE];
    print!(rt; "record")?;
    print_sectors(rt, w)?;
    let state = if w.closed { " closed" } else { "" };
    let written = answer_number(try_and_take(w, &bytes, &mut out));
    let closed = answer_number(writer::close(w, &mut four));
    let short = answer_number(try_and_take(w, &bytes, &mut four));
    println!(rt; "{state}: sector {written}, closing {closed}, another length {short}")
}
