// Input read into a buffer until the buffer is full or the input ends.
#![tactic(auto)]

ghost use Rattle.std.specs.Prelude.{◌<◌, length, take, IfOk};
ghost use Rattle.std.specs.Io.{ReadsAtMost};
ghost use Rattle.std.specs.Io.KnownBytes.{Consumes, IsAtEnd};

use std::io;
use std::io::Read;

// How many bytes of the input stand at the start of the buffer; fewer than it holds only where the input ends.
pub fn read_full<R: Read>(reader: &mut R, buf: &mut [u8]) -> io::Result<usize>
    ensures in_bounds { ReadsAtMost result buf.new }
    ensures bytes { IfOk result (λ n. Consumes (R.remaining reader.old) (R.remaining reader.new)
        (take n buf.new)) }
    ensures end { IfOk result (λ n. n < length buf.new → IsAtEnd (R.remaining reader.new)) }
{
    let mut done = 0;
    while done < buf.len() {
        match reader.read(&mut buf[done..])? {
            0 => break,
            n => done += n,
        }
    }
    Ok(done)
}

#[cfg(test)]
mod tests {
    use super::read_full;
    use std::io;
    use std::io::Read;

    // A reader that gives two bytes at a time, and one that fails behind them.
    #[derive(Drop)]
    struct Pairs {
        left: u8,
        fails: bool,
    }

    impl Read for Pairs {
        fn read(&mut self, buf: &mut [u8]) -> io::Result<usize> {
            if self.left == 0 && self.fails {
                return Err(io::Error::from(io::ErrorKind::Unsupported));
            }
            if self.left == 0 || buf.len() < 2 {
                return Ok(0);
            }
            self.left -= 1;
            buf[..2].copy_from_slice(b"ab");
            Ok(2)
        }
    }

    #[test]
    fn fills_to_the_end(rt: HostRuntime) -> Result<(), std::test::Fail> {
        let mut short: &[u8] = b"abc";
        let mut buf = [0u8; 5];
        assert_eq!(rt; read_full(&mut short, &mut buf)?, 3);
        assert_eq!(rt; buf, *b"abc\0\0");
        let mut long: &[u8] = b"abcdefg";
        assert_eq!(rt; read_full(&mut long, &mut buf)?, 5);
        assert_eq!(rt; long, b"fg".as_slice());
        let fails = false;
        let mut pieces = Pairs { left: 2, fails };
        let mut six = [0u8; 6];
        assert_eq!(rt; read_full(&mut pieces, &mut six)?, 4);
        assert_eq!(rt; six, *b"abab\0\0");
        Ok(())
    }

    #[test]
    fn fails_where_a_read_fails(rt: HostRuntime) {
        let fails = true;
        let mut pieces = Pairs { left: 2, fails };
        let mut six = [0u8; 6];
        assert!(rt; read_full(&mut pieces, &mut six).is_err());
    }
}
