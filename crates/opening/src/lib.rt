// Opening a house from a list of level bytes, a table that says which level dominates which, and the rule of its signals.

#![tactic(auto)]

ghost use Rattle.std.specs.Prelude.{◌≡◌, [], ◌∷◌, ◌<◌, None, Some, MatchResult, length, get_or};
ghost use Rattle.house.specs.Checks.{first_of};
ghost use Rattle.house.specs.Order.{wrong_at, disordered};
ghost use Rattle.house.specs.Opening.{wrong_count, wrong_length, wrong_level, misfits, rows, opened, opening};

use house::{House, Item, Misfit, Opening, Rule};
use parts::{dominates, left_free};
use std::array;

const OLD_CHAIN: [u8; 16] = [1, 1, 1, 1, 0, 1, 1, 1, 0, 0, 1, 1, 0, 0, 0, 1];

// A number of levels that is refused, whatever they are.
#[tactic(auto, unfolding(house::specs::Opening::wrong_count))]
pub fn is_wrong_count(n: usize) -> bool
    ensures { result ≡ wrong_count n }
{
    n == 0 || 64 < n
}

fn has_wrong_level(levels: &[u8]) -> bool
    ensures { result ≡ wrong_level levels.now }
{
    levels.iter().any(|level| 3 < *level)
}

// The 64 triples of levels are numbered in order.
fn is_wrong_at(order: [u8; 16], n: u8) -> bool
    requires { n < 64 }
    ensures { result ≡ wrong_at order n }
{
    let a = n / 16;
    let b = n / 4 % 4;
    let c = n % 4;
    let over = |x, y| dominates(order, x, y);
    let large = 1 < order[usize::from(4 * b + a)];
    let loose = !over(a, a);
    let tied = over(a, b) & over(b, a) & (a != b);
    let broken = over(a, b) & over(b, c) & !over(a, c);
    large | loose | tied | broken
}

fn is_disordered(order: [u8; 16]) -> bool
    ensures { result ≡ disordered order }
{
    (0..64).any(|n| is_wrong_at(order, n))
}

// The table as an order, if no check applies; or the first that does. Levels and table go apart, as `open` is given them.
#[tactic(auto, unfolding(house::specs::Opening::wrong_table))]
fn admitted(levels: &[u8], table: &[u8]) -> Result<[u8; 16], Misfit>
    ensures { MatchResult result
        (λ order. (order ≡ table.now) × (first_of (misfits levels.now table.now) ≡ None))
        (λ misfit. first_of (misfits levels.now table.now) ≡ Some misfit) }
{
    let Ok(order) = <[u8; 16]>::try_from(table) else {
        return Err(Misfit::Length);
    };
    if is_wrong_count(levels.len()) {
        return Err(Misfit::Length);
    }
    if has_wrong_level(levels) {
        return Err(Misfit::Level);
    }
    if is_disordered(order) {
        return Err(Misfit::Order);
    }
    Ok(order)
}

// A row past the last item is that of level 0 with nothing in it.
fn all_rows(levels: &[u8]) -> [Item; 64]
    ensures { result ≡ rows levels.now }
{
    array::from_fn(|i| Item {
        level: levels.get(i).copied().unwrap_or(0),
        value: 0,
        version: 0,
    })
}

fn furnish(levels: &[u8], order: [u8; 16], rule: Rule) -> House
    ensures { result ≡ opened levels.now order rule }
{
    House {
        count: levels.len(),
        order,
        rule,
        items: all_rows(levels),
        pending: [0; 64],
        places: [left_free(); 32],
        next: [1; 4],
        cells: [0; 2048],
    }
}

// A refused opening yields the house of no items, which holds the old chain and takes rule A.
#[tactic(auto, unfolding(house::specs::Opening::opening, house::specs::Order::old_chain))]
pub fn open(levels: &[u8], table: &[u8], rule: Rule) -> Opening
    ensures { result ≡ opening levels.now table.now rule }
{
    match admitted(levels, table) {
        Ok(order) => Opening {
            misfit: None,
            house: furnish(levels, order, rule),
        },
        Err(misfit) => Opening {
            misfit: Some(misfit),
            house: furnish(b"", OLD_CHAIN, Rule::A),
        },
    }
}
