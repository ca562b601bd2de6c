// A view of a side: what its values are, and its names, with nothing changed.
ghost use Rattle.std.specs.Prelude.{length, ◌≡◌, ◌≤◌, ℕ};
ghost use Rattle.entries.specs.Answer.{max_text};
ghost use Rattle.meaning.proofs.SideBySide.{is_object};
ghost use Rattle.meaning.specs.Meaning.{Tree};
ghost use Rattle.meaning.specs.Merge.{is_null};
ghost use Rattle.members.specs.Names.{Named, name_of};
ghost use Rattle.patch.specs.Emits.{Emits, Fits};
ghost use Rattle.patch.specs.Side.{on_view};
ghost use Rattle.patch.specs.Stands.{Stands};
ghost use Rattle.patch.specs.Turns.{key};

use values::span::start;
use writer::name::{name_length, put_name};

// A text and the table of its records.
#[derive(Clone, Copy)]
pub struct View<'t, 'w> {
    pub text: &'t [u8],
    pub table: &'w [u32],
}

impl View<'_, '_> {
    // Whether the value of record `r` is an object: its first byte tells.
    pub fn is_object(self, r: usize) -> bool
        requires { (d : ℕ) × (v : Tree) × on_view Stands self r d v }
        ensures { (d : ℕ) (v : Tree) → on_view Stands self.entry r d v → result ≡ is_object v }
    {
        self.text[start(self.table, r)] == b'{'
    }

    // Whether it is null.
    pub fn is_null(self, r: usize) -> bool
        requires { (d : ℕ) × (v : Tree) × on_view Stands self r d v }
        ensures { (d : ℕ) (v : Tree) → on_view Stands self.entry r d v → result ≡ is_null v }
    {
        self.text[start(self.table, r)] == b'n'
    }

    // Writes the name of record `r`, behind `mark` and before its colon, or, if not `on`, only counts it.
    #[tactic(auto, using(crate::proofs::Steps::keys))]
    pub fn emit_key(self, r: usize, mark: u8, on: bool, out: &mut [u8]) -> usize
        requires { (length self.text.now ≤ max_text) × on_view Named self r × Fits on (key mark (on_view name_of self r)) out.old }
        ensures emitted { Emits on (key mark (on_view name_of self.entry r)) out.old result out.new }
    {
        if on {
            out[0] = mark;
            return 1 + put_name(self.text, self.table, r, &mut out[1..]);
        }
        1 + name_length(self.text, self.table, r)
    }
}
