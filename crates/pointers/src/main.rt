// Looks up the twelve pointers of RFC 6901 section 5 in its document, and the pointers of 01's examples.
// Each line has a pointer, what it gives, and `ok` where that is what the RFC or 01 says, byte for byte,
// or `WRONG`.
#![tactic(auto)]

use check::same;
use console::verdict::verdict;
use nibrocate::find::find;
use nibrocate::part::part;
use std::io;

// The document of RFC 6901 section 5, in one line.
const DOCUMENT: [u8; 112] =
    *b"{ \"foo\": [\"bar\", \"baz\"], \"\": 0, \"a/b\": 1, \"c%d\": 2, \"e^f\": 3, \"g|h\": 4, \"i\\\\j\": 5, \"k\\\"l\": 6, \" \": 7, \"m~n\": 8 }";

// The text of 01's examples.
const FOO: [u8; 26] = *b"{\"foo\":[\"bar\",\"baz\"],\"\":0}";

// Four words for each byte of the longer one.
const WORDS: usize = 448;

// Writes the record and the part found, and compares both.
fn found(
    rt: &impl Print,
    text: &[u8],
    pointer: &[u8],
    record: u32,
    value: &[u8],
) -> io::Result<()> {
    let mut table = [0; WORDS];
    let a = find(text, &mut table, pointer);
    let p = part(text, &mut table, pointer);
    print!(rt; "'")?;
    rt.write_all(pointer)?;
    print!(rt; "' is {}, ", a.count)?;
    rt.write_all(p)?;
    verdict(rt, a.number == 0 && a.count == record && same(p, value))
}

// Writes number and place of the refusal, and compares both; the part is empty.
fn refused(
    rt: &impl Print,
    text: &[u8],
    pointer: &[u8],
    number: u32,
    place: u32,
) -> io::Result<()> {
    let mut table = [0; WORDS];
    let a = find(text, &mut table, pointer);
    let p = part(text, &mut table, pointer);
    print!(rt; "'")?;
    rt.write_all(pointer)?;
    print!(rt; "' is refused {} at {}", a.number, a.place)?;
    let right = a.number == number && a.input == 2 && a.place == place && p.len() == 0;
    verdict(rt, right)
}

// The same in the document.
fn named(rt: &impl Print, pointer: &[u8], record: u32, value: &[u8]) -> io::Result<()> {
    found(rt, &DOCUMENT, pointer, record, value)
}

fn main(rt: HostRuntime) -> io::Result<()> {
    named(&rt, b"", 0, &DOCUMENT)?;
    named(&rt, b"/foo", 1, b"[\"bar\", \"baz\"]")?;
    named(&rt, b"/foo/0", 2, b"\"bar\"")?;
    named(&rt, b"/", 4, b"0")?;
    named(&rt, b"/a~1b", 5, b"1")?;
    named(&rt, b"/c%d", 6, b"2")?;
    named(&rt, b"/e^f", 7, b"3")?;
    named(&rt, b"/g|h", 8, b"4")?;
    named(&rt, b"/i\\j", 9, b"5")?;
    named(&rt, b"/k\"l", 10, b"6")?;
    named(&rt, b"/ ", 11, b"7")?;
    named(&rt, b"/m~0n", 12, b"8")?;
    found(&rt, b"{\"/\":1,\"~1\":2}", b"/~01", 2, b"2")?;
    found(&rt, &FOO, b"/foo/0", 2, b"\"bar\"")?;
    found(&rt, &FOO, b"/", 4, b"0")?;
    refused(&rt, &FOO, b"/foo/01", 11, 4)?;
    refused(&rt, &FOO, b"/~2", 10, 2)?;
    refused(&rt, &FOO, b"foo", 10, 0)
}
