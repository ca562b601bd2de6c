// Room for what is to be written.
ghost use Rattle.std.specs.Prelude.{◌≤◌};
ghost use Rattle.text.specs.Table.{unnamed};
ghost use Rattle.writer.specs.Room.{RoomFor};

use reader::answer::{Input, Refused};
use reader::limits::MAX_TEXT;
use scan::refusal::Refusal;

// Refuses `n` bytes that are to be written to `out` if they are more than the ceiling or don't fit.
#[tactic(auto, using(crate::proofs::Lengths::too_long, crate::proofs::Lengths::too_narrow))]
pub fn room_for(n: usize, out: &[u8]) -> Result<(), Refused>
    requires { n ≤ unnamed }
    ensures room { RoomFor n out.now result }
{
    if MAX_TEXT < n {
        return Err(Refused {
            refusal: Refusal::LongOutput(n),
            input: Input::Output,
        });
    }
    if out.len() < n {
        return Err(Refused {
            refusal: Refusal::NarrowOutput(n),
            input: Input::Output,
        });
    }
    Ok(())
}
