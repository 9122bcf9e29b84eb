// The block maker and the formatter.
ghost use Rattle.std.specs.Prelude.{◌≡◌, length};
ghost use Rattle.eccblock.specs.Encode.{encode_refusal, encoded_buffer};
ghost use Rattle.formatter.specs.Formatter.{format_refusal, formatted_buffer};
ghost use Rattle.ffi.specs.Answers.{previous_of};

use refusals::answer_number;

// The block before, as C tells it: the one with that first number where a block comes before, else none.
pub fn previous_of(follows: bool, first: u32) -> Option<u32>
    ensures { result ≡ previous_of follows first }
{
    follows.then_some(first)
}

// 32,768 main data bytes to a block of 37,856 in recording order; 0, or refusal 1, 2, 3 or 10. `follows` says whether a block comes before, and `previous` is that
// block's first number, which counts only then.
#[unsafe(no_mangle)]
pub extern "C" fn chamanzil_encode_block(
    main: &[u8],
    follows: bool,
    previous: u32,
    first: u32,
    info: u8,
    out: &mut [u8],
) -> u32
    ensures value { result
        ≡ encode_refusal (previous_of follows previous)
        (length main.now) (length out.old) first info }
    ensures out_after { out.new
        ≡ encoded_buffer (previous_of follows previous) main.now first info out.old }
{
    let before = previous_of(follows, previous);
    u32::from(answer_number(eccblock::encode_block(main, before, first, info, out)))
}

// 32,768 main data bytes to a stream of 77,380: the block maker, then the writer from a new record; 0, or refusal 1, 2 or 3.
#[unsafe(no_mangle)]
pub extern "C" fn chamanzil_format_block(main: &[u8], first: u32, info: u8, out: &mut [u8]) -> u32
    ensures value { result ≡ format_refusal (length main.now) (length out.old) first info }
    ensures out_after { out.new ≡ formatted_buffer main.now first info out.old }
{
    u32::from(answer_number(formatter::format_block(main, first, info, out)))
}
