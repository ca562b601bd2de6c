// Merges the fifteen pairs of RFC 7396 appendix A, and the targets and patches of 01's examples. Each line
// has target, patch and what is written, and `ok` where that is the canonical text of the result that the
// RFC or 01 gives, or `WRONG`.
#![tactic(auto)]

use check::same;
use console::front::front;
use console::verdict::verdict;
use nibrocate::merge::merge;
use nibrocate::write::write;
use std::io;

// No text here has more than 32 bytes, nor has its canonical text.
const BYTES: usize = 32;

const WORDS: usize = 128;

// Writes the merge of `target` with `patch`, and compares it with the canonical text of `result`.
fn merged(rt: &impl Print, target: &[u8], patch: &[u8], res: &[u8]) -> io::Result<()> {
    let mut target_table = [0; WORDS];
    let mut patch_table = [0; WORDS];
    let mut out = [0; BYTES];
    let mut due = [0; BYTES];
    let a = merge(target, &mut target_table, patch, &mut patch_table, &mut out);
    let b = write(res, &mut patch_table, &mut due);
    rt.write_all(target)?;
    print!(rt; " with ")?;
    rt.write_all(patch)?;
    print!(rt; " is ")?;
    rt.write_all(front(&out, a.count))?;
    let right = a.number == 0 && b.number == 0 && same(front(&out, a.count), front(&due, b.count));
    verdict(rt, right)
}

fn main(rt: HostRuntime) -> io::Result<()> {
    merged(&rt, b"{\"a\":\"b\"}", b"{\"a\":\"c\"}", b"{\"a\":\"c\"}")?;
    merged(
        &rt,
        b"{\"a\":\"b\"}",
        b"{\"b\":\"c\"}",
        b"{\"a\":\"b\",\"b\":\"c\"}",
    )?;
    merged(&rt, b"{\"a\":\"b\"}", b"{\"a\":null}", b"{}")?;
    merged(
        &rt,
        b"{\"a\":\"b\",\"b\":\"c\"}",
        b"{\"a\":null}",
        b"{\"b\":\"c\"}",
    )?;
    merged(&rt, b"{\"a\":[\"b\"]}", b"{\"a\":\"c\"}", b"{\"a\":\"c\"}")?;
    merged(
        &rt,
        b"{\"a\":\"c\"}",
        b"{\"a\":[\"b\"]}",
        b"{\"a\":[\"b\"]}",
    )?;
    merged(
        &rt,
        b"{\"a\":{\"b\":\"c\"}}",
        b"{\"a\":{\"b\":\"d\",\"c\":null}}",
        b"{\"a\":{\"b\":\"d\"}}",
    )?;
    merged(
        &rt,
        b"{\"a\":[{\"b\":\"c\"}]}",
        b"{\"a\":[1]}",
        b"{\"a\":[1]}",
    )?;
    merged(&rt, b"[\"a\",\"b\"]", b"[\"c\",\"d\"]", b"[\"c\",\"d\"]")?;
    merged(&rt, b"{\"a\":\"b\"}", b"[\"c\"]", b"[\"c\"]")?;
    merged(&rt, b"{\"a\":\"foo\"}", b"null", b"null")?;
    merged(&rt, b"{\"a\":\"foo\"}", b"\"bar\"", b"\"bar\"")?;
    merged(&rt, b"{\"e\":null}", b"{\"a\":1}", b"{\"e\":null,\"a\":1}")?;
    merged(&rt, b"[1,2]", b"{\"a\":\"b\",\"c\":null}", b"{\"a\":\"b\"}")?;
    merged(
        &rt,
        b"{}",
        b"{\"a\":{\"bb\":{\"ccc\":null}}}",
        b"{\"a\":{\"bb\":{}}}",
    )
}
