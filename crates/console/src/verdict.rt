// What a program says of a comparison.
use std::io;

// Ends a line by `ok` or by `WRONG`.
pub fn verdict(rt: &impl Print, right: bool) -> io::Result<()> {
    if right {
        println!(rt; ": ok")
    } else {
        println!(rt; ": WRONG")
    }
}
