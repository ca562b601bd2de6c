// Numbers on standard output.
use std::io;

// Writes `before` and the digits of `n`.
pub fn show_number(rt: &impl Print, before: &[u8], n: u32) -> io::Result<()> {
    rt.write_all(before)?;
    print!(rt; "{n}")
}
