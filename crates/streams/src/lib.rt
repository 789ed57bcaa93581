// Bytes from a reader into a buffer of fixed room.
#![tactic(auto)]

ghost use Rattle.std.specs.Prelude.{◌≤◌, ◌<◌, length, take, IfOk};
ghost use Rattle.std.specs.Io.KnownBytes.{Consumes, IsAtEnd};

use std::io::{self, Read};

// Reads until `buf` is full or the input ends, and answers how many bytes it put at the start of `buf`. A `while`, since it counts what
// the reader gave, which no iterator does.
pub fn read_full<R: Read>(input: &mut R, buf: &mut [u8]) -> io::Result<usize>
    ensures bound { IfOk result (λ n. n ≤ length buf.new) }
    ensures bytes { IfOk result (λ n. Consumes (R.remaining input.old) (R.remaining input.new) (take n buf.new)) }
    ensures end { IfOk result (λ n. n < length buf.new → IsAtEnd (R.remaining input.new)) }
{
    let mut done = 0;
    while done < buf.len() {
        let n = input.read(&mut buf[done..])?;
        if n == 0 {
            break;
        }
        done += n;
    }
    Ok(done)
}

#[cfg(test)]
mod tests {
    use super::*;
    use std::io::ErrorKind;
    use std::test::Fail;

    // Gives a byte a read, and fails when none is left.
    #[derive(Drop)]
    struct Drip {
        left: u8,
    }

    impl Read for Drip {
        fn read(&mut self, buf: &mut [u8]) -> io::Result<usize> {
            if self.left == 0 {
                return Err(ErrorKind::ConnectionReset.into());
            }
            if buf.is_empty() {
                return Ok(0);
            }
            buf[0] = self.left;
            self.left -= 1;
            Ok(1)
        }
    }

    #[test]
    fn fills_what_there_is_room_for(rt: HostRuntime) -> Result<(), Fail> {
        let mut room = [0u8; 3];
        let mut drip = Drip { left: 5 };
        assert_eq!(rt; read_full(&mut drip, &mut room)?, 3);
        assert_eq!(rt; room, [5, 4, 3]);
        assert_eq!(rt; drip.left, 2);
        Ok(())
    }

    #[test]
    fn stops_at_the_end_of_the_input(rt: HostRuntime) -> Result<(), Fail> {
        let mut room = [9u8; 4];
        let mut input = b"ab".as_slice();
        assert_eq!(rt; read_full(&mut input, &mut room)?, 2);
        assert_eq!(rt; room, [b'a', b'b', 9, 9]);
        Ok(())
    }

    #[test]
    fn gives_a_failed_read_as_an_error(rt: HostRuntime) -> Result<(), Fail> {
        let mut room = [0u8; 4];
        let mut drip = Drip { left: 2 };
        assert!(rt; read_full(&mut drip, &mut room).is_err());
        Ok(())
    }
}
