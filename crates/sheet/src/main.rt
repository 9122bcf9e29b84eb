// The bench sheet (document 01): a block's stream on standard input, one line on standard output.
#![tactic(auto)]

use layout::{BLOCK_SIZE, MAIN_SIZE, STREAM_SIZE};
use std::io;

// One byte more than a stream, so that a longer input shows.
const STREAM_ROOM: usize = STREAM_SIZE + 1;

fn main(rt: HostRuntime) -> io::Result<()> {
    let mut stream = [0; STREAM_ROOM];
    let mut block = [0; BLOCK_SIZE];
    let mut erasures = [0; BLOCK_SIZE];
    let mut main = [0; MAIN_SIZE];
    let n = intake::read_full(&mut rt.reader(), &mut stream)?;
    let answer = blockreader::read_block(&stream[..n], &mut block, &mut erasures, &mut main);
    rt.write_all(sheetline::sheet_line(answer).as_bytes())
}
