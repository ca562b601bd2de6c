// Texts in files, and from any other reader.
ghost use Rattle.std.specs.Prelude.{◌<◌, OnOk, length, take};
ghost use Rattle.console.specs.Counts.{IsPrefixLen};
ghost use Rattle.std.specs.Io.KnownBytes.{Consumes, IsAtEnd};

use crate::ROOM;
use std::fs::File;
use std::io::Read;
use std::rt::Files;
use std::{io, str};

// Puts the bytes of the file at the start of `room`, as many as it holds, and answers how many there are: 0
// where the file can't be opened, as where its name is not UTF-8. A read that fails ends the text.
pub fn read_file<R: Files>(rt: &R, path: &[u8], room: &mut [u8; ROOM]) -> usize
    ensures within { IsPrefixLen result room.new }
{
    let Ok(name) = str::from_utf8(path) else {
        return 0;
    };
    match File::open(rt, name) {
        Ok(mut file) => read_full(&mut file, room).0,
        Err(_) => 0,
    }
}

// Reads until `buf` is full, the input ends or a read fails. Answers how many bytes it put at the start of `buf`,
// those that the reader had first, and whether a read failed.
pub fn read_full<R: Read>(reader: &mut R, buf: &mut [u8]) -> (usize, io::Result<()>)
    ensures within { IsPrefixLen result.0 buf.new }
    ensures bytes { Consumes (R.remaining reader.old) (R.remaining reader.new) (take result.0 buf.new) }
    ensures end { OnOk result.1 (result.0 < length buf.new → IsAtEnd (R.remaining reader.new)) }
{
    let mut done = 0;
    while done < buf.len() {
        match reader.read(&mut buf[done..]) {
            Ok(0) => return (done, Ok(())),
            Ok(n) => done += n,
            Err(e) => return (done, Err(e)),
        }
    }
    (done, Ok(()))
}

#[cfg(test)]
mod tests {
    use super::*;
    use std::io::{Error, ErrorKind};

    // Gives `left` bytes, one at each read, and then fails.
    #[derive(Drop)]
    struct Breaking {
        left: u8,
    }

    impl Read for Breaking {
        fn read(&mut self, buf: &mut [u8]) -> io::Result<usize> {
            if self.left == 0 {
                return Err(Error::from(ErrorKind::TimedOut));
            }
            if buf.len() == 0 {
                return Ok(0);
            }
            buf[0] = self.left;
            self.left -= 1;
            Ok(1)
        }
    }

    // What stood in the buffer stays behind what was read.
    #[test]
    fn keeps_what_was_read_before_a_failure(rt: HostRuntime) {
        let mut buf = [9; 5];
        let (n, end) = read_full(&mut Breaking { left: 3 }, &mut buf);
        assert_eq!(rt; n, 3);
        assert_eq!(rt; buf, [3, 2, 1, 9, 9]);
        assert!(rt; end.is_err());
    }

    #[test]
    fn stops_at_a_full_buffer(rt: HostRuntime) {
        let mut buf = [9; 5];
        let (n, end) = read_full(&mut Breaking { left: 7 }, &mut buf);
        assert_eq!(rt; n, 5);
        assert_eq!(rt; buf, [7, 6, 5, 4, 3]);
        assert!(rt; end.is_ok());
    }

    #[test]
    fn a_name_that_is_no_text_opens_nothing(rt: HostRuntime) {
        let mut room = [9; ROOM];
        assert_eq!(rt; read_file(&rt, b"\xff", &mut room), 0);
        assert_eq!(rt; read_file(&rt, b"a\0b", &mut room), 0);
        assert_eq!(rt; room[0], 9);
    }
}
