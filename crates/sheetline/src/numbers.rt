// A first number, in hexadecimal.
ghost use Rattle.std.specs.Prelude.{◌≡◌};
ghost use Rattle.sheetline.specs.Line.{hex_digit, hex_six};

// The last hexadecimal digit of a number, as a capital.
fn hex_digit(n: u32) -> u8
    ensures { result ≡ hex_digit n }
{
    match (n % 16) as u8 {
        d @ 0..=9 => b'0' + d,
        d => b'A' + (d - 10),
    }
}

pub(crate) fn hex_six(n: u32) -> [u8; 6]
    ensures { result ≡ hex_six n }
{
    [
        hex_digit(n / 1048576),
        hex_digit(n / 65536),
        hex_digit(n / 4096),
        hex_digit(n / 256),
        hex_digit(n / 16),
        hex_digit(n),
    ]
}
