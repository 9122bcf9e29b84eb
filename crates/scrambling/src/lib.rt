// Scrambling (ECMA-268, clause 17) of the main data bytes of a frame. The frame goes in and comes back by value.
#![tactic(auto)]

ghost use Rattle.std.specs.Prelude.{◌≡◌, ℕ, ◌<◌, get_or};
ghost use Rattle.lists.specs.Fill.{tabulate};
ghost use Rattle.layout.specs.Lengths.{frame_main_size};
ghost use Rattle.scrambling.specs.Scrambling.{preset_of, register, scrambling_byte, scrambled};

use layout::{EDC_PLACE, FRAME_MAIN_SIZE, FRAME_SIZE, HEAD_SIZE};

const PRESETS: [u16; 16] = [
    0x0001, 0x5500, 0x0002, 0x2A00, 0x0004, 0x5400, 0x0008, 0x2800, 0x0010, 0x5000, 0x0020, 0x2001,
    0x0040, 0x4002, 0x0080, 0x0005,
];

fn preset(number: u32) -> u16
    ensures value { result ≡ preset_of number }
    ensures upper_bound { result < 0x8000 }
{
    PRESETS[(number / 16 % 16) as usize]
}

// Eight shifts at once: r6 to r0 move up by eight places, and r14 to r7 xor r10 to r3 enter below them.
fn eight_shifts(r: u16) -> u16
    requires { r < 0x8000 }
    ensures value { result ≡ register r 8 }
    ensures upper_bound { result < 0x8000 }
{
    r % 128 * 256 + ((r / 128) ^ (r / 8)) % 256
}

// The first fifteen scrambling bytes of the sector.
fn first_bytes(number: u32) -> [u8; FRAME_MAIN_SIZE]
    ensures { (i : ℕ) → i < 15 → get_or result i 0 ≡ scrambling_byte (preset_of number) i }
{
    let mut s = [0; FRAME_MAIN_SIZE];
    let mut r = preset(number);
    for i in 0..15 {
        s[i] = (r % 256) as u8;
        r = eight_shifts(r);
    }
    s
}

// All of them: the register's rule, x^15 + x^4 + 1, holds for each eighth bit too, so a byte is the sum of those fifteen and eleven before it.
fn scrambling_bytes(number: u32) -> [u8; FRAME_MAIN_SIZE]
    ensures { result ≡ tabulate (scrambling_byte (preset_of number)) frame_main_size }
{
    let mut s = first_bytes(number);
    for i in 15..FRAME_MAIN_SIZE {
        s[i] = s[i - 15] ^ s[i - 11];
    }
    s
}

// The frame of a sector with its main data bytes scrambled, or unscrambled.
pub fn scramble(mut frame: [u8; FRAME_SIZE], number: u32) -> [u8; FRAME_SIZE]
    ensures { result ≡ scrambled number frame }
{
    let s = scrambling_bytes(number);
    for (i, byte) in frame[HEAD_SIZE..EDC_PLACE].iter_mut().enumerate() {
        *byte ^= s[i];
    }
    frame
}
