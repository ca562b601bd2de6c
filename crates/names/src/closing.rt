// Where a name closes.
#![tactic(auto, using(crate::proofs::Reading::closes))]

ghost use Rattle.std.specs.Prelude.{drop, length, ◌≡◌, ◌≤◌, ◌<◌};
ghost use Rattle.names.specs.Units.{closing};

// The offset in `text` of the quote that closes the name whose characters begin at `from`. A
// backslash and the byte behind it are passed together.
pub fn closing_quote(text: &[u8], from: usize) -> usize
    requires { from ≤ length text.now }
    ensures { (result ≡ closing from (drop from text.now)) × (from ≤ result) × (result ≤ length text.now) }
{
    let mut i = from;
    while i < text.len() {
        match text[i] {
            b'"' => return i,
            b'\\' => i = text.len().min(i + 2),
            _ => i += 1,
        }
    }
    i
}
