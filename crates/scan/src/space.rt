// Whitespace between tokens.
ghost use Rattle.std.specs.Prelude.{◌≤◌, length};
ghost use Rattle.scan.specs.Space.{Skipped, Dense};

use crate::bytes::{byte_at, is_space};

// The first offset of `text`, from `from` on, where no whitespace stands.
pub fn skip(text: &[u8], from: usize) -> usize
    requires { from ≤ length text.now }
    ensures skipped { Skipped text.now from result }
    ensures dense { Dense text.now result }
{
    if b' ' < byte_at(text, from) {
        return from;
    }
    skip_each(text, from)
}

// The same, byte by byte.
fn skip_each(text: &[u8], from: usize) -> usize
    requires { from ≤ length text.now }
    ensures skipped { Skipped text.now from result }
    ensures dense { Dense text.now result }
{
    for i in from..text.len() {
        if !is_space(text[i]) {
            return i;
        }
    }
    text.len()
}
