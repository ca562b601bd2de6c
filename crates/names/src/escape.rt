// What the characters behind a backslash stand for. Of a byte that no text has there, what the
// definitions say of it all the same.
ghost use Rattle.std.specs.Prelude.{◌≡◌, ◌-◌, ◌<◌};
ghost use Rattle.names.specs.Steps.{codes};
ghost use Rattle.text.specs.Bytes.{escape_unit, hex_value};
ghost use Rattle.text.specs.Strings.{hex_unit};

// The unit of a backslash and `b`.
pub fn escape_unit(b: u8) -> u64
    ensures { (result ≡ escape_unit b) × (result < 256) }
{
    match b {
        b'b' => 8,
        b'f' => 12,
        b'n' => 10,
        b'r' => 13,
        b't' => 9,
        _ => u64::from(b),
    }
}

// The value of the hexadecimal digit `b`.
fn hex_value(b: u8) -> u64
    ensures { (result ≡ hex_value b) × (result < 256) }
{
    match b {
        ..=b'9' => u64::from(b.saturating_sub(b'0')),
        ..=b'F' => 10 + u64::from(b.saturating_sub(b'A')),
        _ => 10 + u64::from(b.saturating_sub(b'a')),
    }
}

// The unit of a `\u` and the digits `a`, `b`, `c` and `d`.
pub fn hex_unit(a: u8, b: u8, c: u8, d: u8) -> u64
    ensures { (result ≡ hex_unit a b c d) × (result < codes) }
{
    16 * (16 * (16 * hex_value(a) + hex_value(b)) + hex_value(c)) + hex_value(d)
}
