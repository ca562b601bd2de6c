// Single bytes and their classes.
ghost use Rattle.std.specs.Prelude.{◌≡◌, get_or};
ghost use Rattle.scan.specs.Numbers.{opens_number};
ghost use Rattle.text.specs.Bytes.{is_digit, is_e, is_escape, is_hex, is_plain, is_space};

// Whether `b` is whitespace.
pub fn is_space(b: u8) -> bool
    ensures { result ≡ is_space b }
{
    (b == b' ') | (b == b'\t') | (b == b'\n') | (b == b'\r')
}

// Whether `b` stands for itself in a string.
pub fn is_plain(b: u8) -> bool
    ensures { result ≡ is_plain b }
{
    (b' ' <= b) & (b <= 127) & !(b == b'"') & !(b == b'\\')
}

// Whether `b` may stand behind a backslash, `u` apart.
pub fn is_escape(b: u8) -> bool
    ensures { result ≡ is_escape b }
{
    (b == b'"')
        | (b == b'\\')
        | (b == b'/')
        | (b == b'b')
        | (b == b'f')
        | (b == b'n')
        | (b == b'r')
        | (b == b't')
}

// Whether `b` is a hexadecimal digit.
pub fn is_hex(b: u8) -> bool
    ensures { result ≡ is_hex b }
{
    ((b'0' <= b) & (b <= b'9')) | ((b'A' <= b) & (b <= b'F')) | ((b'a' <= b) & (b <= b'f'))
}

// Whether `b` is a digit.
pub fn is_digit(b: u8) -> bool
    ensures { result ≡ is_digit b }
{
    (b'0' <= b) & (b <= b'9')
}

// Whether `b` opens an exponent.
pub fn is_e(b: u8) -> bool
    ensures { result ≡ is_e b }
{
    (b == b'E') | (b == b'e')
}

// Whether `b` is the first byte of a number.
pub fn opens_number(b: u8) -> bool
    ensures { result ≡ opens_number b }
{
    (b == b'-') | ((b'0' <= b) & (b <= b'9'))
}

// The byte of `text` at `i`, or 0 behind the text.
pub fn byte_at(text: &[u8], i: usize) -> u8
    ensures { result ≡ get_or text.now i 0 }
{
    text.get(i).copied().unwrap_or(0)
}
