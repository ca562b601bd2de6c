// Runs 01's examples of texts and of the writer. Each line has a text, what it gives, and `ok` where that is
// what 01 says, or `WRONG`. Pointers and merges have programs of their own.
#![tactic(auto)]

use check::same;
use console::front::front;
use console::show::show_number;
use console::verdict::verdict;
use nibrocate::read::read;
use nibrocate::write::write;
use std::io;

// No text here has more than 65 bytes, nor has its canonical text.
const BYTES: usize = 65;

const WORDS: usize = 260;

// Writes number and place of the refusal of `text`, which the line calls `name`, and compares both.
fn refused_as(
    rt: &impl Print,
    name: &[u8],
    text: &[u8],
    number: u32,
    place: u32,
) -> io::Result<()> {
    let mut table = [0; WORDS];
    let a = read(text, &mut table);
    rt.write_all(name)?;
    show_number(rt, b" is refused ", a.number)?;
    show_number(rt, b" at ", a.place)?;
    let right = a.number == number && a.input == 1 && a.place == place && a.count == 0;
    verdict(rt, right)
}

fn refused(rt: &impl Print, text: &[u8], number: u32, place: u32) -> io::Result<()> {
    refused_as(rt, text, text, number, place)
}

// Writes the canonical text of `text`, and compares it with `due`.
fn writes(rt: &impl Print, text: &[u8], due: &[u8]) -> io::Result<()> {
    let mut table = [0; WORDS];
    let mut out = [0; BYTES];
    let a = write(text, &mut table, &mut out);
    rt.write_all(text)?;
    print!(rt; " writes ")?;
    rt.write_all(front(&out, a.count))?;
    verdict(rt, a.number == 0 && same(front(&out, a.count), due))
}

fn main(rt: HostRuntime) -> io::Result<()> {
    refused_as(&rt, b"the empty text", b"", 3, 0)?;
    refused(&rt, b"-", 3, 1)?;
    refused(&rt, b"01", 4, 1)?;
    refused(&rt, b"[1,]", 4, 3)?;
    refused(&rt, b"trux", 4, 3)?;
    refused(&rt, b"1 2", 4, 2)?;
    refused(&rt, b"{\"a\":1,\"\\u0061\":2}", 8, 14)?;
    refused(&rt, b"1.5e-999", 7, 7)?;
    writes(&rt, b"1.5e-998", b"15e-999")?;
    refused(&rt, b"10e999", 7, 5)?;
    writes(&rt, b"0e999", b"0")?;
    writes(&rt, b"123456789012345678", b"123456789012345678")?;
    refused(&rt, b"123456789012345678.", 6, 18)?;
    refused(&rt, &[b'['; 64], 3, 64)?;
    refused(&rt, &[b'['; 65], 5, 64)?;
    refused_as(&rt, b"\" and byte 80", b"\"\x80", 9, 1)?;
    writes(
        &rt,
        b"{\"b\":1.50,\"a\":\"\\n\"}",
        b"{\"a\":\"\\u000a\",\"b\":15e-1}",
    )?;
    writes(&rt, b"100", b"1e2")?;
    writes(
        &rt,
        b"{\"a\":1,\"B\":2,\"aa\":3}",
        b"{\"B\":2,\"a\":1,\"aa\":3}",
    )
}
