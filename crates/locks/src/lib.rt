// The lock cells: who stands in the way of a request, and the answers that go by them.
// Any number names a place and an item: it is taken modulo 32 and 64, as the sweeps take it. Cells, place and item go apart through
// here, as the public functions are given them: a struct would be made in each of these.
// A scan that only says yes or no goes to its end: without a way out of its loop it is compiled to a few wide instructions.

#![tactic(auto)]

ghost use Rattle.std.specs.Prelude.{◌≡◌, ℕ, Bool, ◌*◌, ◌/◌, ◌%◌, ◌-◌};
ghost use Rattle.house.specs.Search.{any, find};
ghost use Rattle.house.specs.Cell.{cell_at, another_holds, first_signalled, count_signalled};
ghost use Rattle.house.specs.Rules.{read, write, read_answer, ask_answer};
ghost use Rattle.house.specs.declared.Mark.TheVariants.{Read};
ghost use Rattle.ruling.specs.Judged.{lowest_holder, waits_at, certify_holder};
ghost use Rattle.locks.specs.Others.{Tests, other};

use house::{Answer, Item, Mark};
use parts::{grow, has_mark, holds_any, is_written, own_cells};

fn cell(cells: &[u8; 2048], p: usize, i: usize) -> u8
    ensures { result ≡ cell_at cells.now (p % 32) (i % 64) }
{
    cells[p % 32 * 64 + i % 64]
}

// Whether one of those places has it. Tried by `fold`: its promise speaks of calls of the closure, as that of `find` does below.
fn any_place<F: Fn(usize) -> bool>(from: usize, end: usize, has: F) -> bool
    requires { F.IsAlwaysCallable has }
    ensures { (test : ℕ → Bool) → Tests (F.post has) test end → result ≡ any test from (end - from) }
{
    let mut hit = false;
    for p in from..end {
        hit |= has(p);
    }
    hit
}

// The lowest that has it. Tried by `find`: its promise speaks of calls of the closure, and what `has` answers did not come out of it. Out of line, since
// beside the scan it costs each read and write 35 instructions.
#[inline(never)]
fn lowest_below<F: Fn(usize) -> bool>(end: usize, has: F) -> Option<usize>
    requires { F.IsAlwaysCallable has }
    ensures { (test : ℕ → Bool) → Tests (F.post has) test end → result ≡ find test 0 end }
{
    for p in 0..end {
        if has(p) {
            return Some(p);
        }
    }
    None
}

// Another than `me` has it in its cell of item i. Where `me` has it not, nobody need be told from the others, and the plain scan is
// half as long.
fn other_has<F: Fn(u8) -> bool>(cells: &[u8; 2048], me: usize, i: usize, has: F) -> bool
    requires { F.IsAlwaysCallable has }
    ensures { (test : ℕ → Bool) → Tests (F.post has) test 256 → result ≡ any (other test cells.now (me % 32) (i % 64)) 0 32 }
{
    if has(cell(cells, me, i)) {
        any_place(0, 32, |p| (p != me % 32) & has(cell(cells, p, i)))
    } else {
        any_place(0, 32, |p| has(cell(cells, p, i)))
    }
}

// Who that is, at the lowest place. The scan comes first: mostly it says no.
fn lowest_other<F: Fn(u8) -> bool>(cells: &[u8; 2048], me: usize, i: usize, has: F) -> Option<usize>
    requires { F.IsAlwaysCallable has }
    ensures { (test : ℕ → Bool) → Tests (F.post has) test 256 → result ≡ find (other test cells.now (me % 32) (i % 64)) 0 32 }
{
    if !other_has(cells, me, i, &has) {
        return None;
    }
    lowest_below(32, |p| (p != me % 32) & has(cell(cells, p, i)))
}

// Who stands in the way, at the lowest place: of a read, and below of a write and of a certify.
pub fn read_holder(cells: &[u8; 2048], me: usize, i: usize) -> Option<usize>
    ensures { result ≡ lowest_holder cells.now read (me % 32) (i % 64) }
{
    lowest_other(cells, me, i, |c| has_mark(Mark::Certify, c))
}

pub fn write_holder(cells: &[u8; 2048], me: usize, i: usize) -> Option<usize>
    ensures { result ≡ lowest_holder cells.now write (me % 32) (i % 64) }
{
    lowest_other(cells, me, i, is_written)
}

fn another_reads(cells: &[u8; 2048], me: usize, i: usize, p: usize) -> bool
    ensures { result ≡ another_holds cells.now Read (me % 32) (i % 64) (p % 32) }
{
    (p % 32 != me % 32) & has_mark(Mark::Read, cell(cells, p, i))
}

// The places of a level are eight in a row.
fn waits_at(cells: &[u8; 2048], me: usize, i: usize) -> bool
    ensures { result ≡ waits_at cells.now (me % 32) (i % 64) }
{
    let from = me % 32 / 8 * 8;
    has_mark(Mark::Write, cell(cells, me, i))
        && any_place(from, from + 8, |p| another_reads(cells, me, i, p))
}

// The lowest item at which a certify has to wait. "With nothing written it is done at once."
fn first_awaited(cells: &[u8; 2048], me: usize) -> Option<usize>
    ensures { result ≡ find (waits_at cells.now (me % 32)) 0 64 }
{
    if !holds_any(cells, Mark::Write, me) {
        return None;
    }
    lowest_below(64, |i| waits_at(cells, me, i))
}

pub fn certify_holder(cells: &[u8; 2048], me: usize) -> Option<usize>
    ensures { result ≡ certify_holder cells.now (me % 32) }
{
    let i = first_awaited(cells, me)?;
    lowest_below(
        32,
        |p| (p / 8 == me % 32 / 8) & another_reads(cells, me, i, p),
    )
}

pub fn answer_read(cells: &[u8; 2048], x: Item, pending: u32, me: usize, i: usize) -> Answer
    ensures { result ≡ read_answer cells.now x pending (me % 32) (i % 64) }
{
    if has_mark(Mark::Write, cell(cells, me, i)) {
        return Answer::Pair(pending, grow(x.version));
    }
    Answer::Pair(x.value, x.version)
}

fn first_signalled(cells: &[u8; 2048], me: usize) -> Option<usize>
    ensures { result ≡ first_signalled cells.now (me % 32) }
{
    own_cells(cells, me)
        .iter()
        .position(|c| has_mark(Mark::Signalled, *c))
}

// Tried by `filter` and `count`: 380 instructions more, since that is not compiled to wide ones.
fn count_signalled(cells: &[u8; 2048], me: usize) -> u32
    ensures { result ≡ count_signalled cells.now (me % 32) }
{
    let mut n = 0;
    for c in own_cells(cells, me) {
        if has_mark(Mark::Signalled, *c) {
            n += 1;
        }
    }
    n
}

pub fn answer_ask(cells: &[u8; 2048], me: usize) -> Answer
    ensures { result ≡ ask_answer cells.now (me % 32) }
{
    let lowest = first_signalled(cells, me).unwrap_or(0);
    let count = count_signalled(cells, me);
    Answer::Signals(lowest as u16, count)
}
