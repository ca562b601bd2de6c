// Reads a text from standard input and writes its canonical text, or `refused N at P`, and a line feed.
#![tactic(auto)]

ghost use Rattle.std.specs.Prelude.{◌*◌, ◌<◌, length, take};
ghost use Rattle.console.specs.Programs.{Canon, longest};
ghost use Rattle.console.specs.Counts.{IsPrefixLen};

use console::file::read_full;
use console::line::put_refused_at;
use console::{LONGEST, ROOM, WORDS};
use nibrocate::write::write;
use std::io;

// A canonical text has at most six bytes for each byte of its text; the line feed follows it.
const LINE: usize = 6 * LONGEST + 1;

// Puts the line for `text` at the front of `line`, and returns its length.
fn canon(text: &[u8], line: &mut [u8]) -> usize
    requires { 6 * longest < length line.old }
    ensures canon { Canon text.now (take result line.new) }
    ensures within { IsPrefixLen result line.new }
{
    if text.len() > LONGEST {
        return put_refused_at(1, 0, line);
    }
    let mut table = [0; WORDS];
    let a = write(text, &mut table, line);
    if a.number != 0 {
        return put_refused_at(a.number, a.place, line);
    }
    let n = a.count as usize;
    line[n] = b'\n';
    n + 1
}

fn main(rt: HostRuntime) -> io::Result<()> {
    let mut room = [0; ROOM];
    // A read that fails ends the text.
    let (n, _) = read_full(&mut rt.stdin(), &mut room);
    let mut line = [0; LINE];
    let m = canon(&room[..n], &mut line);
    rt.write_all(&line[..m])
}
