// What is done with single parts of a house: the marks of one lock cell, a version, a ticket, a row; and the reply to a request.
// One function serves all four marks.

#![tactic(auto)]

mod rows;

ghost use Rattle.std.specs.Prelude.{◌≡◌, ◌||◌, ◌+◌, ◌*◌, ◌%◌, eqb, slice_range};
ghost use Rattle.house.specs.declared.Answer.TheVariants.{Delayed};
ghost use Rattle.house.specs.declared.Mark.TheVariants.{Write, Certify};
ghost use Rattle.house.specs.Search.{any};
ghost use Rattle.house.specs.Cell.{weight, has, marked, unmarked, holds};
ghost use Rattle.house.specs.House.{dominates, level_of};
ghost use Rattle.house.specs.Rules.{signals_at, grown, ticket_after, replied};

use house::{Answer, Mark, Operation, Place, Reply, Request, Rule};
pub use rows::{active, certified, left_free};

fn weigh(m: Mark) -> u8
    ensures { result ≡ weight m }
{
    m as u8
}

pub fn has_mark(m: Mark, c: u8) -> bool
    ensures { result ≡ has m c }
{
    c / weigh(m) % 2 == 1
}

pub fn with_mark(m: Mark, c: u8) -> u8
    ensures { result ≡ marked m c }
{
    if has_mark(m, c) { c } else { c + weigh(m) }
}

pub fn without_mark(m: Mark, c: u8) -> u8
    ensures { result ≡ unmarked m c }
{
    if has_mark(m, c) { c - weigh(m) } else { c }
}

// The item of that cell is written, by the transaction whose cell it is.
pub fn is_written(c: u8) -> bool
    ensures { result ≡ (has Write c || has Certify c) }
{
    has_mark(Mark::Write, c) | has_mark(Mark::Certify, c)
}

// Level a dominates level b. Past the table's end nothing is dominated.
#[tactic(auto, unfolding(house::specs::House::dominates))]
pub fn dominates(order: [u8; 16], a: u8, b: u8) -> bool
    ensures { result ≡ dominates order a b }
{
    let n = 4 * usize::from(b) + usize::from(a);
    order.get(n).copied().unwrap_or(0) == 1
}

// The 64 cells of the transaction at place `me`, modulo 32.
pub fn own_cells(cells: &[u8; 2048], me: usize) -> &[u8]
    ensures { result.now ≡ slice_range cells.now (me % 32 * 64) (me % 32 * 64 + 64) }
{
    let from = me % 32 * 64;
    &cells[from..from + 64]
}

// That transaction has the mark on some item. Without a way out the scan is compiled to a few wide instructions, so it is no `any`.
pub fn holds_any(cells: &[u8; 2048], m: Mark, me: usize) -> bool
    ensures { result ≡ any (holds cells.now m (me % 32)) 0 64 }
{
    own_cells(cells, me)
        .iter()
        .fold(false, |hit, c| hit | has_mark(m, *c))
}

// Whether that operation gives the signals. It is asked by a number, and answers for any.
pub fn gives_at(rule: Rule, operation: u8) -> bool
    ensures { result ≡ eqb (signals_at rule) operation }
{
    let at = match rule {
        Rule::A => Operation::Certify,
        Rule::B => Operation::Commit,
    };
    Operation::try_from(operation) == Ok(at)
}

#[tactic(auto, unfolding(house::specs::Rules::grown))]
pub fn grow(version: u32) -> u32
    ensures { result ≡ grown version }
{
    version.saturating_add(1)
}

#[tactic(auto, unfolding(house::specs::Rules::ticket_after))]
pub fn next_ticket(ticket: u32) -> u32
    ensures { result ≡ ticket_after ticket }
{
    ticket.checked_add(1).unwrap_or(0)
}

// A delay names its holder, by the row and the number, modulo 32, of its place.
pub fn delayed_by(holder: Place, p: usize) -> Answer
    ensures { result ≡ Delayed holder.ticket (level_of (p % 32)) }
{
    let level = (p % 32 / 8) as u32;
    Answer::Delayed(holder.ticket, level)
}

// A reply repeats the request's operation, item and ticket, where the answer brings no others.
pub fn reply_to(q: Request, answer: Answer) -> Reply
    ensures { result ≡ replied q answer }
{
    let done = Reply {
        number: 0,
        operation: q.operation,
        item: q.item,
        ticket: q.ticket,
        value: 0,
        version: 0,
    };
    match answer {
        Answer::Refused(number) => Reply { number, ..done },
        Answer::Delayed(holder, level) => Reply {
            number: 1,
            value: holder,
            version: level,
            ..done
        },
        Answer::Done => done,
        Answer::Ticket(ticket) => Reply { ticket, ..done },
        Answer::Pair(value, version) => Reply {
            value,
            version,
            ..done
        },
        Answer::Signals(item, count) => Reply {
            item,
            value: count,
            ..done
        },
    }
}
