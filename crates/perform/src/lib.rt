// The change that goes with a ruling, made where the house lies, and of a house that is given and handed back. It is made for done
// requests only, and only where a house has the level, the place and the item that it names.

#![tactic(auto)]

ghost use Rattle.std.specs.Prelude.{◌≡◌, ◌<◌, IsTrue};
ghost use Rattle.house.specs.House.{Sizes};
ghost use Rattle.house.specs.Rules.{begun, read_by, written_by, certified_by};
ghost use Rattle.ruling.specs.Ruling.{ended_by, effect, fits, effect_if_fit};

use house::{House, Mark, Operation};
use parts::{active, certified, gives_at, left_free, next_ticket};
use ruling::Change;
use sweeps::{
    clear_cells, commit_items, convert_cells, drop_pending, has_claimed, mark_cell, signal_readers,
};

// The numbers of a change carry no bound in their types, since `perform` answers for every change: they are tested here, once for all, and
// what makes the change asks for what was tested.
fn is_fit(change: Change) -> bool
    ensures { result ≡ fits change }
{
    match change {
        Change::Nothing => true,
        Change::Begin(l, me) => (l < 4) & (me < 32),
        // an arm for each: with `|` a done request takes 14 instructions more
        Change::Read(me, i) => (me < 32) & (i < 64),
        Change::Write(me, i, _) => (me < 32) & (i < 64),
        Change::Certify(me) => me < 32,
        Change::Commit(me) => me < 32,
        Change::Abort(me) => me < 32,
    }
}

// The lists of a house are as long as its arrays, which a proof learns where the house is read.
fn sizes(h: &House)
    ensures { Sizes h.now }
{
    let _item = h.items[0];
}

#[tactic(auto, unfolding(house::specs::Rules::begun))]
fn begin(h: &mut House, l: usize, me: usize)
    requires { (l < 4) × (me < 32) }
    ensures { h.new ≡ begun h.old l me }
{
    let ticket = h.next[l];
    h.places[me] = active(ticket);
    h.next[l] = next_ticket(ticket);
}

#[tactic(auto, unfolding(house::specs::Rules::read_by))]
fn read(h: &mut House, me: usize, i: usize)
    requires { (me < 32) × (i < 64) }
    ensures { h.new ≡ read_by h.old me i }
{
    mark_cell(&mut h.cells, Mark::Read, me, i);
}

#[tactic(auto, unfolding(house::specs::Rules::written_by))]
fn write(h: &mut House, me: usize, i: usize, value: u32)
    requires { (me < 32) × (i < 64) }
    ensures { h.new ≡ written_by h.old me i value }
{
    mark_cell(&mut h.cells, Mark::Write, me, i);
    h.pending[i] = value;
}

fn certify(h: &mut House, me: usize)
    requires { me < 32 }
    ensures { h.new ≡ certified_by h.old me }
{
    sizes(h);
    let gives = gives_at(h.rule, Operation::Certify as u8);
    signal_readers(&mut h.cells, &h.order, gives, me);
    convert_cells(&mut h.cells, me);
    h.places[me] = certified(h.places[me]);
}

// One function for both ends, as `ended_by` is one definition.
fn end(h: &mut House, me: usize, commits: bool)
    requires { me < 32 }
    ensures { h.new ≡ ended_by commits h.old me }
{
    sizes(h);
    let claimed = has_claimed(&h.cells, me);
    let saves = claimed & commits;
    if saves {
        h.items = commit_items(h.items, &h.pending, &h.cells, me);
    }
    if claimed {
        h.pending = drop_pending(h.pending, &h.cells, me);
    }
    let signals = commits & gives_at(h.rule, Operation::Commit as u8);
    signal_readers(&mut h.cells, &h.order, signals, me);
    clear_cells(&mut h.cells, me);
    h.places[me] = left_free();
}

fn make(h: &mut House, change: Change)
    requires { IsTrue (fits change) }
    ensures { h.new ≡ effect h.old change }
{
    match change {
        Change::Nothing => {}
        Change::Begin(l, me) => begin(h, l, me),
        Change::Read(me, i) => read(h, me, i),
        Change::Write(me, i, value) => write(h, me, i, value),
        Change::Certify(me) => certify(h, me),
        Change::Commit(me) => end(h, me, true),
        Change::Abort(me) => end(h, me, false),
    }
}

#[tactic(auto, unfolding(ruling::specs::Ruling::effect_if_fit))]
pub fn perform_in_place(h: &mut House, change: Change)
    ensures { h.new ≡ effect_if_fit h.old change }
{
    if is_fit(change) {
        make(h, change);
    }
}

pub fn perform(mut h: House, change: Change) -> House
    ensures { result ≡ effect_if_fit h change }
{
    perform_in_place(&mut h, change);
    h
}
