// Code Words and streams of code bits.
ghost use Rattle.std.specs.Prelude.{◌≡◌, ◌&&◌, leb, length};
ghost use Rattle.lists.specs.Count.{bit};
ghost use Rattle.annexg.specs.Read.{read_word};
ghost use Rattle.channel.specs.Bits.{zero_runs_hold};
ghost use Rattle.layout.specs.Lengths.{stream_size};
ghost use Rattle.reader.specs.Closing.{closing_holds};
ghost use Rattle.ffi.specs.Answers.{reading_number};

// The byte that a word stands for where the half word `following` comes after it; 256 for an unknown word.
#[unsafe(no_mangle)]
pub extern "C" fn chamanzil_read_word(word: u16, following: u16) -> u32
    ensures { result ≡ reading_number (read_word word following) }
{
    annexg::read_word(word, following).map_or(256, u32::from)
}

// 1 where a stream is no longer than a block's and has the zero runs that a block may have, else 0.
#[unsafe(no_mangle)]
pub extern "C" fn chamanzil_zero_runs_hold(stream: &[u8]) -> u32
    ensures { result ≡ bit (leb (length stream.now) stream_size && zero_runs_hold stream.now) }
{
    u32::from(zeroruns::zero_runs_hold(stream))
}

// 1 where the bytes are four and a closing code, one of SY0's four, else 0.
#[unsafe(no_mangle)]
pub extern "C" fn chamanzil_closing_holds(bytes: &[u8]) -> u32
    ensures { result ≡ bit (closing_holds bytes.now) }
{
    u32::from(reader::closing_holds(bytes))
}
