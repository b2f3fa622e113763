// Reading a stream into a buffer.
#![tactic(auto)]

ghost use Rattle.std.specs.Prelude.{◌≡◌, ◌+◌, ◌<◌, ◌≤◌, IfOk, OnErr, length, take, drop};
ghost use Rattle.std.specs.Io.KnownBytes.{Consumes, IsAtEnd};
ghost use Rattle.streams.specs.Counts.{IsPrefixLen};

use std::io::{Read, Result};

// Reads until buf is full or the input ends, and answers how many bytes it put at the start of buf. On an empty buf it makes no call.
// The error of a read that fails is the answer. Then some bytes may have been taken from the reader, and the start of buf may hold them.
pub fn read_full<R: Read>(reader: &mut R, buf: &mut [u8]) -> Result<usize>
    ensures prefix_len { IfOk result (λ n. IsPrefixLen n buf.new) }
    // What was put there is what the reader gave, where its bytes are known.
    ensures bytes { IfOk result (λ n. Consumes (R.remaining reader.old) (R.remaining reader.new) (take n buf.new)) }
    ensures full_or_end { IfOk result (λ n. n < length buf.new → IsAtEnd (R.remaining reader.new)) }
    ensures failed { OnErr result (length buf.new ≡ length buf.old) }
{
    let mut done = 0;
    // A while loop: how much a read brings is known only after it.
    while done < buf.len() {
        let n = reader.read(&mut buf[done..])?;
        if n == 0 {
            break;
        }
        done += n;
    }
    Ok(done)
}

#[cfg(test)]
mod tests {
    use super::*;
    use std::io::{Error, ErrorKind};
    use std::test::Fail;

    // Gives its bytes one at a time, and then fails.
    #[derive(Drop)]
    struct Failing {
        left: u8,
    }

    impl Read for Failing {
        fn read(&mut self, buf: &mut [u8]) -> Result<usize> {
            if self.left == 0 {
                return Err(Error::from(ErrorKind::Other));
            }
            if buf.is_empty() {
                return Ok(0);
            }
            self.left -= 1;
            buf[0] = b'x';
            Ok(1)
        }
    }

    #[test]
    fn fills_the_buffer_and_stops_at_the_end(rt: HostRuntime) -> std::result::Result<(), Fail> {
        let mut reader: &[u8] = b"abcde";
        let mut buf = [0u8; 3];
        let first = read_full(&mut reader, &mut buf)?;
        assert_eq!(rt; first, 3);
        assert_eq!(rt; &buf[..], &b"abc"[..]);
        let second = read_full(&mut reader, &mut buf)?;
        assert_eq!(rt; second, 2);
        assert_eq!(rt; &buf[..2], &b"de"[..]);
        let third = read_full(&mut reader, &mut buf)?;
        assert_eq!(rt; third, 0);
        Ok(())
    }

    #[test]
    fn goes_on_after_short_reads(rt: HostRuntime) -> std::result::Result<(), Fail> {
        let mut buf = [0u8; 3];
        let n = read_full(&mut Failing { left: 3 }, &mut buf)?;
        assert_eq!(rt; n, 3);
        assert_eq!(rt; &buf[..], &b"xxx"[..]);
        Ok(())
    }

    #[test]
    fn answers_the_error_of_a_later_read(rt: HostRuntime) {
        let mut buf = [0u8; 3];
        let answer = read_full(&mut Failing { left: 2 }, &mut buf);
        assert!(rt; answer.is_err());
    }
}
