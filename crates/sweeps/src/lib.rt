// What a change does to the cells, where they lie, and to the two versions of the items: one mark, and five sweeps, for the
// transaction at place `me`.
// Any number names a place and an item: it is taken modulo 32 and 64, as the desk takes the level and the item of a request. Cells and
// place go apart through here, as the public functions are given them.

#![tactic(auto)]

ghost use Rattle.std.specs.Prelude.{◌≡◌, false, cond, ◌||◌, [], ◌∷◌, map, ◌<◌, ◌%◌, get_or, eqb};
ghost use Rattle.house.specs.declared.Mark.TheVariants.{Read, Write, Certify, Signalled};
ghost use Rattle.house.specs.Search.{any, map_from};
ghost use Rattle.house.specs.Cell.{has, marked, unmarked, with_mark};
ghost use Rattle.house.specs.House.{above, level_of};
ghost use Rattle.house.specs.Rules.{wrote, signalled_cell, converted_cell, cleared_cell, committed_item, dropped_pending, grown};
ghost use Rattle.sweeps.specs.Sweep.{swept, on_item, signalled_from};

use house::{Item, Mark};
use parts::{dominates, grow, has_mark, is_written, own_cells, with_mark, without_mark};

pub fn mark_cell(cells: &mut [u8; 2048], m: Mark, me: usize, i: usize)
    ensures { cells.new ≡ with_mark m cells.old (me % 32) (i % 64) }
{
    let n = me % 32 * 64 + i % 64;
    cells[n] = with_mark(m, cells[n]);
}

fn signal(c: u8) -> u8
    ensures { result ≡ cond (has Read c) (marked Signalled c) c }
{
    if has_mark(Mark::Read, c) {
        with_mark(Mark::Signalled, c)
    } else {
        c
    }
}

// The places of a level are eight in a row, and their cells of an item 64 apart: of what a walk in such steps leaves nothing is proved, so
// they are indexed.
fn signal_level(cells: &mut [u8; 2048], l: usize, i: usize)
    requires { (l < 4) × (i < 64) }
    ensures { cells.new ≡ swept (on_item i (signalled_from (eqb l))) cells.old }
{
    for k in 0..8 {
        let n = (l * 8 + k) * 64 + i;
        cells[n] = signal(cells[n]);
    }
}

fn is_above(order: [u8; 16], a: u8, me: usize) -> bool
    ensures { result ≡ above order a (level_of (me % 32)) }
{
    let b = (me % 32 / 8) as u8;
    dominates(order, a, b) & (a != b)
}

// The levels above that of the place.
fn levels_above(order: [u8; 16], me: usize) -> [bool; 4]
    ensures { result ≡ map (λ l. above order l (level_of (me % 32))) (0 ∷ 1 ∷ 2 ∷ 3 ∷ []) }
{
    [0, 1, 2, 3].map(|a| is_above(order, a, me))
}

// The cells of the levels above are all that is looked at.
fn signal_item(cells: &mut [u8; 2048], over: [bool; 4], i: usize)
    requires { i < 64 }
    ensures { cells.new ≡ swept (on_item i (signalled_from (λ l. get_or over l false))) cells.old }
{
    for (l, above) in over.iter().enumerate() {
        if *above {
            signal_level(cells, l, i);
        }
    }
}

// The transaction has written some item. Without a way out the scan is compiled to a few wide instructions, so it is no `any`. What it would
// share with `holds_any` is no shorter than the fold.
pub fn has_claimed(cells: &[u8; 2048], me: usize) -> bool
    ensures { result ≡ any (wrote cells.now (me % 32)) 0 64 }
{
    own_cells(cells, me)
        .iter()
        .fold(false, |hit, c| hit | is_written(*c))
}

// Who gives none, or has written nothing, signals nobody; `gives` is a yes or no, as its clause has it. The order is looked up once for all items, and the own cells are copied, since
// the others change meanwhile.
pub fn signal_readers<'a>(cells: &'a mut [u8; 2048], order: &'a [u8; 16], gives: bool, me: usize)
    ensures { cells.new ≡ swept (signalled_cell gives order.now cells.old (me % 32)) cells.old }
{
    if !gives {
        return;
    }
    if !has_claimed(cells, me) {
        return;
    }
    let mut own = [0; 64];
    own.copy_from_slice(own_cells(cells, me));
    let over = levels_above(*order, me);
    for (i, c) in own.iter().enumerate() {
        if is_written(*c) {
            signal_item(cells, over, i);
        }
    }
}

fn convert(c: u8) -> u8
    ensures { result ≡ cond (has Write c) (marked Certify (unmarked Write c)) c }
{
    if has_mark(Mark::Write, c) {
        with_mark(Mark::Certify, without_mark(Mark::Write, c))
    } else {
        c
    }
}

// The own cells are lent here and below: a function that lends them on would have to say what they end as.
pub fn convert_cells(cells: &mut [u8; 2048], me: usize)
    ensures { cells.new ≡ swept (converted_cell (me % 32)) cells.old }
{
    let from = me % 32 * 64;
    for c in &mut cells[from..from + 64] {
        *c = convert(*c);
    }
}

pub fn clear_cells(cells: &mut [u8; 2048], me: usize)
    ensures { cells.new ≡ swept (cleared_cell (me % 32)) cells.old }
{
    let from = me % 32 * 64;
    cells[from..from + 64].fill(0);
}

fn commit_item(x: Item, pending: u32) -> Item
    ensures { result ≡ record { level = x.level; value = pending; version = grown x.version } }
{
    Item {
        value: pending,
        version: grow(x.version),
        ..x
    }
}

// Most rows stay: only a certified one is stored. Of what a `zip` of two walks leaves nothing is proved, so the rows are indexed.
pub fn commit_items<'a>(
    items: [Item; 64],
    pending: &'a [u32; 64],
    cells: &'a [u8; 2048],
    me: usize,
) -> [Item; 64]
    ensures { result ≡ map_from 0 (committed_item cells.now pending.now (me % 32)) items }
{
    let mut out = items;
    for (i, c) in own_cells(cells, me).iter().enumerate() {
        if has_mark(Mark::Certify, *c) {
            out[i] = commit_item(out[i], pending[i]);
        }
    }
    out
}

fn drop_value(c: u8, v: u32) -> u32
    ensures { result ≡ cond (has Write c || has Certify c) 0 v }
{
    if is_written(c) { 0 } else { v }
}

// Indexed as `commit_items` is.
pub fn drop_pending(pending: [u32; 64], cells: &[u8; 2048], me: usize) -> [u32; 64]
    ensures { result ≡ map_from 0 (dropped_pending cells.now (me % 32)) pending }
{
    let mut out = pending;
    for (i, c) in own_cells(cells, me).iter().enumerate() {
        out[i] = drop_value(*c, out[i]);
    }
    out
}
