// Merges `patch.json` into `target.json`, both in the folder it is run in, and writes the canonical text of
// the result, or `refused N in I at P`, and a line feed.
#![tactic(auto)]

ghost use Rattle.std.specs.Prelude.{◌*◌, ◌<◌, length, take};
ghost use Rattle.console.specs.Programs.{Apply, longest};
ghost use Rattle.console.specs.Counts.{IsPrefixLen};

use console::file::read_file;
use console::line::put_refused_in;
use console::{LONGEST, ROOM, WORDS};
use nibrocate::merge::merge;
use nibrocate::read::read;
use std::io;

// The canonical text of a merge has at most six bytes for each byte of target and patch; the line feed
// follows it.
const LINE: usize = 12 * LONGEST + 1;

// Puts the line for target and patch at the front of `line`, and returns its length. All of the target is
// judged before the length of the patch.
fn apply(target: &[u8], patch: &[u8], line: &mut [u8]) -> usize
    requires { 12 * longest < length line.old }
    ensures apply { Apply target.now patch.now (take result line.new) }
    ensures within { IsPrefixLen result line.new }
{
    if target.len() > LONGEST {
        return put_refused_in(1, 1, 0, line);
    }
    let mut target_table = [0; WORDS];
    if patch.len() > LONGEST {
        let a = read(target, &mut target_table);
        if a.number == 0 {
            return put_refused_in(1, 2, 0, line);
        }
        return put_refused_in(a.number, a.input, a.place, line);
    }
    let mut patch_table = [0; WORDS];
    let a = merge(target, &mut target_table, patch, &mut patch_table, line);
    if a.number != 0 {
        return put_refused_in(a.number, a.input, a.place, line);
    }
    let n = a.count as usize;
    line[n] = b'\n';
    n + 1
}

fn main(rt: HostRuntime) -> io::Result<()> {
    let mut target = [0; ROOM];
    let n = read_file(&rt, b"target.json", &mut target);
    let mut patch = [0; ROOM];
    let m = read_file(&rt, b"patch.json", &mut patch);
    let mut line = [0; LINE];
    let k = apply(&target[..n], &patch[..m], &mut line);
    rt.write_all(&line[..k])
}
