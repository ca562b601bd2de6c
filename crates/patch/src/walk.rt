// The merge of two values. Values inside values are merged by recursion, at most 64 deep, since no text
// opens more containers at once. If not `on`, each step only counts what it would write.
ghost use Rattle.std.specs.Prelude.{◌≤◌, length, Option, [], ◌++◌, ◌≡◌};
ghost use Rattle.entries.specs.Answer.{max_text};
ghost use Rattle.meaning.specs.Canonical.{put};
ghost use Rattle.meaning.specs.Meaning.{Tree};
ghost use Rattle.members.specs.Names.{Named, name_of};
ghost use Rattle.patch.specs.Emits.{Emits, Fits};
ghost use Rattle.patch.specs.Side.{on_side, on_sides};
ghost use Rattle.patch.specs.Stands.{Stands};
ghost use Rattle.patch.specs.Turns.{Takes, key};
ghost use Rattle.patch.specs.Walks.{Merges, Sides};
ghost use Rattle.text.specs.Bytes.{Bytes};
ghost use Rattle.text.specs.Ceilings.{max_depth};

use crate::emit::{emit_end, mark_at, rest_at};
use crate::side::Side;
use crate::turn::{rest, turn};
use members::chain::Chain;
use members::link::clear;
use std::cmp::Ordering;

// Writes the member of record `x` as it stands, behind `mark`.
fn keep_member(side: &mut Side, x: usize, mark: u8, depth: usize, on: bool, out: &mut [u8]) -> usize
    requires { (depth ≤ max_depth) × (length side.old.text.now ≤ max_text) × on_side Named side.old x × ((v : Tree) × on_side Stands side.old x depth v × Fits on (key mark (on_side name_of side.old x) ++ put v []) out.old) }
    ensures emitted { (v : Tree) → on_side Stands side.old x depth v → Emits on (key mark (on_side name_of side.old x) ++ put v []) out.old result out.new }
    ensures same { side.new ≡ side.old }
{
    let seen = side.view();
    let n = seen.emit_key(x, mark, on, out);
    n + side.emit_value(x, depth, on, &mut out[rest_at(on, n)..])
}

// Writes what turn `z` gives, behind `mark`: the target's member of record `x`, or that of record `y` of
// the patch merged with it, or nothing.
#[cycle(merge_member_merge_members_merge_value)]
fn merge_member(
    target: &mut Side,
    x: usize,
    patch: &mut Side,
    y: usize,
    z: Ordering,
    mark: u8,
    depth: usize,
    on: bool,
    out: &mut [u8],
) -> usize
    requires { (depth ≤ max_depth) × ((e : Bytes) × on_sides Takes target.old patch.old depth x y z mark e × Fits on e out.old) }
    ensures emitted { (e : Bytes) → on_sides Takes target.old patch.old depth x y z mark e → Emits on e out.old result out.new }
    ensures same { (target.new ≡ target.old) × (patch.new ≡ patch.old) }
{
    if z.is_lt() {
        return keep_member(target, x, mark, depth, on, out);
    }
    let new = patch.view();
    if new.is_null(y) {
        return 0;
    }
    let n = new.emit_key(y, mark, on, out);
    let old = z.is_eq().then_some(x);
    n + merge_value(target, old, patch, y, depth, on, &mut out[rest_at(on, n)..])
}

// Writes the object of the members `a` of the target, merged with the members `b` of the patch.
#[cycle(merge_member_merge_members_merge_value)]
fn merge_members(
    target: &mut Side,
    mut a: Chain,
    patch: &mut Side,
    mut b: Chain,
    depth: usize,
    on: bool,
    out: &mut [u8],
) -> usize
    requires { (depth ≤ max_depth) × ((c : Bytes) × on_sides Sides target.old patch.old depth a b c × Fits on c out.old) }
    ensures emitted { (c : Bytes) → on_sides Sides target.old patch.old depth a b c → Emits on c out.old result out.new }
    ensures same { (target.new ≡ target.old) × (patch.new ≡ patch.old) }
{
    let mut at: usize = 0;
    while 0 < a.count || 0 < b.count {
        let z = turn(target.view(), a, patch.view(), b);
        let mark = mark_at(at);
        let lent = &mut out[rest_at(on, at)..];
        let n = merge_member(target, a.head, patch, b.head, z, mark, depth, on, lent);
        if z.is_le() {
            a = rest(target.view().table, a);
        }
        if z.is_ge() {
            b = rest(patch.view().table, b);
        }
        at += n;
    }
    at + emit_end(at, on, &mut out[rest_at(on, at)..])
}

// Writes the merge of record `x` of the target, or of nothing, with record `y` of the patch, which stand
// inside `depth` open containers, to the front of `out`. The sides are as they were.
#[cycle(merge_member_merge_members_merge_value)]
pub fn merge_value(
    target: &mut Side,
    x: Option<usize>,
    patch: &mut Side,
    y: usize,
    depth: usize,
    on: bool,
    out: &mut [u8],
) -> usize
    requires { (depth ≤ max_depth) × ((c : Bytes) × on_sides Merges target.old patch.old depth x y c × Fits on c out.old) }
    ensures emitted { (c : Bytes) → on_sides Merges target.old patch.old depth x y c → Emits on c out.old result out.new }
    ensures same { (target.new ≡ target.old) × (patch.new ≡ patch.old) }
{
    if !patch.view().is_object(y) {
        return patch.emit_value(y, depth, on, out);
    }
    let a = target.enter_old(x);
    let b = patch.enter(y);
    let n = merge_members(target, a, patch, b, depth + 1, on, out);
    if let Some(x) = x {
        clear(target.table, x + 1, a.count);
    }
    clear(patch.table, y + 1, b.count);
    n
}
