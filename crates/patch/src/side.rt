// A side of the merge: the target or the patch.
ghost use Rattle.std.specs.Prelude.{◌+◌, ◌≡◌, ◌≤◌, ℕ, [], MatchOption};
ghost use Rattle.meaning.specs.Canonical.{put};
ghost use Rattle.meaning.specs.Meaning.{Pairs, Tree};
ghost use Rattle.meaning.specs.Merge.{members_of};
ghost use Rattle.patch.specs.Emits.{Emits, Fits};
ghost use Rattle.patch.specs.Side.{Seen, on_side, with_words};
ghost use Rattle.patch.specs.Stands.{Chained, Old, Stands};
ghost use Rattle.reader.specs.Tokens.{brace};
ghost use Rattle.text.specs.Ceilings.{max_depth};
ghost use Rattle.writer.specs.Entering.{Kept};

use crate::view::View;
use members::chain::{Chain, order};
use members::record::next;
use writer::measure::needed;
use writer::put::put_value;

// A text and the table of its records, whose links may be changed.
#[derive(Drop)]
pub struct Side<'t, 'w> {
    pub text: &'t [u8],
    pub table: &'w mut [u32],
}

impl Side<'_, '_> {
    // The same text and table, only to be read.
    pub fn view(&self) -> View<'_, '_>
        ensures { Seen self.now result }
    {
        View {
            text: self.text,
            table: self.table,
        }
    }

    // The members of the object of record `r`, linked in the order of their names.
    pub fn enter(&mut self, r: usize) -> Chain
        requires { (d : ℕ) × (ps : Pairs) × on_side Stands self.old r d (Tree.object ps) }
        ensures chained { (d : ℕ) (ps : Pairs) → on_side Stands self.old r d (Tree.object ps) → on_side Chained self.new (d + 1) result.count result.head ps }
        ensures kept { Kept self.old.table.now self.new.table.now brace result.count (r + 1) }
        ensures same { with_words self.new self.old.table.now ≡ self.old }
    {
        let table = &mut *self.table;
        order(self.text, table, r + 1, next(table, r))
    }

    // The members of what a patch is merged with: none if that isn't there, or isn't an object.
    pub fn enter_old(&mut self, r: Option<usize>) -> Chain
        requires { (d : ℕ) × (v : Tree) × on_side Old self.old d r v }
        ensures chained { (d : ℕ) (v : Tree) → on_side Old self.old d r v → on_side Chained self.new (d + 1) result.count result.head (members_of v) }
        ensures kept { MatchOption r (self.new ≡ self.old) (λ r. Kept self.old.table.now self.new.table.now brace result.count (r + 1)) }
        ensures same { with_words self.new self.old.table.now ≡ self.old }
    {
        match r {
            Some(r) if self.view().is_object(r) => self.enter(r),
            _ => Chain { head: 0, count: 0 },
        }
    }

    // Writes the value of record `r`, or, if not `on`, only counts it. The side is as it was.
    pub fn emit_value(&mut self, r: usize, depth: usize, on: bool, out: &mut [u8]) -> usize
        requires { (depth ≤ max_depth) × ((v : Tree) × on_side Stands self.old r depth v × Fits on (put v []) out.old) }
        ensures emitted { (v : Tree) → on_side Stands self.old r depth v → Emits on (put v []) out.old result out.new }
        ensures same { self.new ≡ self.old }
    {
        let table = &mut *self.table;
        if on {
            return put_value(self.text, table, r, depth, out);
        }
        needed(self.text, table, r)
    }
}
