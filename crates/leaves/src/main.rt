// Runs the leaves on tokens at both sides of each edge, and writes for each the refusal's number and place,
// or 0 and the offset behind what was read; of a number also what it comes to.
#![tactic(auto)]

use scan::bytes::opens_number;
use scan::number::{Written, number_at};
use scan::refusal::Refusal;
use scan::space::skip;
use scan::string::string_at;
use scan::word::word_at;
use std::io;

// What a leaf answers: the offset behind what was read, or the refusal's number and place.
fn show(rt: &impl Print, answer: Result<usize, Refusal>) -> io::Result<()> {
    match answer {
        Ok(end) => println!(rt; "0 at {end}"),
        Err(e) => println!(rt; "{e}"),
    }
}

fn show_written(rt: &impl Print, w: Written) -> io::Result<()> {
    if w.negative {
        print!(rt; "-")?;
    }
    let direction = if w.down { "down" } else { "up" };
    print!(rt;
        "{} less {} {direction} {}: ",
        w.coefficient, w.fraction, w.power
    )
}

fn show_number(rt: &impl Print, answer: Result<Written, Refusal>) -> io::Result<()> {
    if let Ok(w) = answer {
        show_written(rt, w)?;
    }
    show(rt, answer.map(|w| w.end))
}

// Reads the token that `text` begins with: a string, a number, or one that begins as `null` does; else
// whitespace.
fn leaf(rt: &impl Print, text: &[u8]) -> io::Result<()> {
    if text.len() == 0 {
        return Ok(());
    }
    let b = text[0];
    if b == b'"' {
        return show(rt, string_at(text, 1));
    }
    if b == b'n' {
        return show(rt, word_at(text, 0, b"null"));
    }
    if opens_number(b) {
        return show_number(rt, number_at(text, 0));
    }
    show(rt, Ok(skip(text, 0)))
}

fn main(rt: HostRuntime) -> io::Result<()> {
    leaf(&rt, b"\"a\\n\\u0061\"")?;
    leaf(&rt, b"\"abcdefghijklmnopqrstuvwxyz\"x")?;
    leaf(&rt, b"\"abc")?;
    leaf(&rt, b"\"\x80")?;
    leaf(&rt, b"\"\x1f")?;
    leaf(&rt, b"\"\\x")?;
    leaf(&rt, b"\"\\u00g0")?;
    leaf(&rt, b"null,")?;
    leaf(&rt, b"nul")?;
    leaf(&rt, b"nulL")?;
    leaf(&rt, b"-")?;
    leaf(&rt, b"01")?;
    leaf(&rt, b"1.5e-998")?;
    leaf(&rt, b"1.5e-999")?;
    leaf(&rt, b"10e999")?;
    leaf(&rt, b"-0e999")?;
    leaf(&rt, b"123456789012345678")?;
    leaf(&rt, b"123456789012345678.")?;
    leaf(&rt, b"1e0000")?;
    leaf(&rt, b" \t\n\r1")
}
