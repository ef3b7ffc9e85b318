// The desk for a caller in C: calls on numbers and slices, each with a fresh house that is gone when it returns. A slice is
// two arguments there, a pointer and a length. What the types say here the caller in C has to keep: a pointer is valid for its
// whole length, and the reply bytes overlap no other slice of the call.

#![tactic(auto)]

ghost use Rattle.std.specs.Prelude.{◌≡◌, length};
ghost use Rattle.desk.specs.Turn.{turned, answered};
ghost use Rattle.house.specs.Opening.{number_of};
ghost use Rattle.maps.specs.Map.{mapped, filled};
ghost use Rattle.port.specs.Call.{opening_by};

use desk::{turn, turn_in_place};
use house::{Opening, Rule};
use maps::read_map;
use opening::open;

// The rule is a number: 0 is A, 1 is B. Another is refused with 28, and yields the house that any refused opening does.
fn open_by(levels: &[u8], table: &[u8], rule: u8) -> Opening
    ensures { result ≡ opening_by levels.now table.now rule }
{
    match Rule::try_from(rule) {
        Ok(rule) => open(levels, table, rule),
        Err(misfit) => Opening {
            misfit: Some(misfit),
            house: open(b"", b"", Rule::A).house,
        },
    }
}

// The number of an opening: 0, 28, 13, 14 or 16.
#[unsafe(no_mangle)]
pub extern "C" fn desk_fresh_open(levels: &[u8], table: &[u8], rule: u8) -> u8
    ensures { result ≡ number_of (opening_by levels.now table.now rule) }
{
    open_by(levels, table, rule).misfit.map_or(0, u8::from)
}

// Opens a house and serves one turn in it, the house by value from step to step; the count of the requests answered. A refused
// opening has no items, and its turn is served too. (One function for this and the next, over the turn that it makes, would be longer.)
#[unsafe(no_mangle)]
pub extern "C" fn desk_fresh_turn(
    levels: &[u8],
    table: &[u8],
    rule: u8,
    requests: &[u8],
    replies: &mut [u8],
    most: usize,
) -> usize
    ensures { let opened = (opening_by levels.now table.now rule).house in
        (result ≡ (turned opened requests.now replies.old most).count)
        × (replies.new ≡ answered opened requests.now replies.old most) }
{
    let opened = open_by(levels, table, rule);
    turn(opened.house, requests, replies, most).count
}

// The same with the house changed where it lies: the call for many requests.
#[unsafe(no_mangle)]
pub extern "C" fn desk_fresh_turn_in_place(
    levels: &[u8],
    table: &[u8],
    rule: u8,
    requests: &[u8],
    replies: &mut [u8],
    most: usize,
) -> usize
    ensures { let opened = (opening_by levels.now table.now rule).house in
        (result ≡ (turned opened requests.now replies.old most).count)
        × (replies.new ≡ answered opened requests.now replies.old most) }
{
    let opened = open_by(levels, table, rule);
    turn_in_place(opened.house, requests, replies, most).count
}

// Opens a house, serves a turn of all requests of `before` in it, reads the map of `items`, and serves a turn of all requests of
// `after`, which shows what the map left in the house; the count of the items handled. The replies of the turns go to `earlier` and
// `later`.
#[unsafe(no_mangle)]
pub extern "C" fn desk_fresh_map(
    levels: &[u8],
    table: &[u8],
    rule: u8,
    before: &[u8],
    earlier: &mut [u8],
    level: u8,
    ticket: u32,
    items: &[u16],
    replies: &mut [u8],
    after: &[u8],
    later: &mut [u8],
) -> usize
    ensures { let opened = (opening_by levels.now table.now rule).house in
        let served = turned opened before.now earlier.old (length before.now) in
        let map = mapped served.house level ticket items.now replies.old in
        (result ≡ map.count)
        × (earlier.new ≡ answered opened before.now earlier.old (length before.now))
        × (replies.new ≡ filled served.house level ticket items.now replies.old)
        × (later.new ≡ answered map.house after.now later.old (length after.now)) }
{
    let opened = open_by(levels, table, rule);
    let served = turn_in_place(opened.house, before, earlier, before.len());
    let map = read_map(served.house, level, ticket, items, replies);
    turn_in_place(map.house, after, later, after.len());
    map.count
}
