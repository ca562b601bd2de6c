// Steps that write to the front of a lent output, or, if not `on`, only count what they would write.
ghost use Rattle.std.specs.Prelude.{◌≡◌};
ghost use Rattle.patch.specs.Emits.{Emits, Fits, end_at, mark_at, rest_at};

use writer::put::put_empty;

// Where the output goes on behind `n` bytes.
pub fn rest_at(on: bool, n: usize) -> usize
    ensures { result ≡ rest_at on n }
{
    if on { n } else { 0 }
}

// What stands before a member of an object of which `at` bytes are written.
pub fn mark_at(at: usize) -> u8
    ensures { result ≡ mark_at at }
{
    if at == 0 { b'{' } else { b',' }
}

// Ends an object of which `at` bytes are written; one without members is both brackets.
#[tactic(auto, using(crate::proofs::Steps::ending))]
pub fn emit_end(at: usize, on: bool, out: &mut [u8]) -> usize
    requires { Fits on (end_at at) out.old }
    ensures emitted { Emits on (end_at at) out.old result out.new }
{
    if at == 0 {
        if on {
            return put_empty(b'{', out);
        }
        return 2;
    }
    if on {
        out[0] = b'}';
    }
    1
}
