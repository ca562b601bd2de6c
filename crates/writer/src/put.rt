// The canonical text of a value of the table. Values inside values are written by recursion, at most 64
// deep, since no text opens more containers at once.
#![tactic(auto, unfolding(crate::specs::Walks::onward, crate::specs::Containers::container))]

ghost use Rattle.std.specs.Prelude.{◌+◌, ◌<◌, ◌≤◌, length, [], ◌≡◌};
ghost use Rattle.members.specs.Records.{Room};
ghost use Rattle.spell.specs.Puts.{Puts};
ghost use Rattle.text.specs.Bytes.{Bytes};
ghost use Rattle.text.specs.Ceilings.{max_depth};
ghost use Rattle.writer.specs.Containers.{container};
ghost use Rattle.writer.specs.Walks.{Ready, mark, onward};
ghost use Rattle.writer.specs.Writes.{Entry, Writes};

use crate::enter::{enter, leave};
use crate::name::put_name;
use members::chain::Chain;
use members::link::link;
use members::record::next;
use reader::value::is_open;
use spell::scalar::put_scalar;
use values::span::{behind, start};

// The entry behind `x` inside what `b` opens.
fn follow(table: &[u32], b: u8, x: usize) -> usize
    requires { Room table.now x }
    ensures { result ≡ onward table.now b x }
{
    if b == b'{' {
        return link(table, x);
    }
    next(table, x)
}

// What stands behind an entry of what `b` opens, with `i` others behind it.
fn mark_behind(b: u8, i: usize) -> u8
    requires { b + 2 < 256 }
    ensures { result ≡ mark b i }
{
    if i == 0 {
        return b + 2;
    }
    b','
}

// Writes an empty container.
pub fn put_empty(b: u8, out: &mut [u8]) -> usize
    requires { (b + 2 < 256) × (2 ≤ length out.old) }
    ensures put { Puts (container b []) out.old result out.new }
{
    out[0] = b;
    out[1] = b + 2;
    2
}

// Writes the name of record `x`, where it has one, and its value to the front of `out`.
#[cycle(put_entries_put_entry_put_value)]
fn put_entry(text: &[u8], table: &mut [u32], x: usize, depth: usize, out: &mut [u8]) -> usize
    requires { (depth ≤ max_depth) × ((e : Bytes) × Entry text.now table.old x depth e × (length e ≤ length out.old)) }
    ensures put { (e : Bytes) → Entry text.now table.old x depth e → Puts e out.old result out.new }
    ensures same { table.new ≡ table.old }
{
    let n = put_name(text, table, x, out);
    n + put_value(text, table, x, depth, &mut out[n..])
}

// Writes what `b` opens, with its `entries`, to the front of `out`.
#[cycle(put_entries_put_entry_put_value)]
fn put_entries(
    text: &[u8],
    table: &mut [u32],
    b: u8,
    entries: Chain,
    depth: usize,
    out: &mut [u8],
) -> usize
    requires { (depth ≤ max_depth) × (b + 2 < 256) × ((c : Bytes) × Ready text.now table.old depth b entries.count entries.head c × (length c ≤ length out.old)) }
    ensures put { (c : Bytes) → Ready text.now table.old depth b entries.count entries.head c → Puts c out.old result out.new }
    ensures same { table.new ≡ table.old }
{
    if entries.count == 0 {
        return put_empty(b, out);
    }
    out[0] = b;
    let mut at: usize = 1;
    let mut x = entries.head;
    for left in (0..entries.count).rev() {
        at += put_entry(text, table, x, depth, &mut out[at..]);
        out[at] = mark_behind(b, left);
        at += 1;
        x = follow(table, b, x);
    }
    at
}

// Writes the value of record `r`, which stands inside `depth` open containers, to the front of `out`. The
// table is as it was.
#[cycle(put_entries_put_entry_put_value)]
pub fn put_value(text: &[u8], table: &mut [u32], r: usize, depth: usize, out: &mut [u8]) -> usize
    requires { (depth ≤ max_depth) × ((c : Bytes) × Writes text.now table.old r depth c × (length c ≤ length out.old)) }
    ensures put { (c : Bytes) → Writes text.now table.old r depth c → Puts c out.old result out.new }
    ensures same { table.new ≡ table.old }
{
    let at = start(table, r);
    let b = text[at];
    if !is_open(b) {
        return put_scalar(text, at, behind(table, r), out);
    }
    let c = enter(text, table, r, b);
    let n = put_entries(text, table, b, c, depth + 1, out);
    leave(table, b, r + 1, c.count);
    n
}
