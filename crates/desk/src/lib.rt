// The run of document 01: whole requests out of lent bytes, answered in order into lent bytes, step after step. In a turn (`turn`) the
// house passes through each step by value. `turn_in_place` is the same turn for a caller who wants the house changed where it lies,
// without a copy of it for each request.

#![tactic(auto)]

ghost use Rattle.std.specs.Prelude.{◌≡◌};
ghost use Rattle.house.specs.Rules.{stepped};
ghost use Rattle.desk.specs.Turn.{turned, answered};

use house::{House, Outcome, Reply, Request};
use step::{step, step_in_place};
use wire::{decode, encode};

// The house after a turn, and how many requests were answered.
#[derive(Clone, Copy)]
pub struct Served {
    pub house: House,
    pub count: usize,
}

// How a turn takes its steps.
trait Steps {
    fn step(h: &mut House, q: Request) -> Reply
        ensures { stepped h.old q ≡ record { house = h.new; reply = result } };
}

struct ByValue;

impl Steps for ByValue {
    fn step(h: &mut House, q: Request) -> Reply {
        let Outcome { house, reply } = step(*h, q);
        *h = house;
        reply
    }
}

struct InPlace;

impl Steps for InPlace {
    fn step(h: &mut House, q: Request) -> Reply {
        step_in_place(h, q)
    }
}

// Its parameters are those of the two calls.
fn serve<S: Steps>(mut h: House, requests: &[u8], replies: &mut [u8], most: usize) -> Served
    ensures { (result ≡ turned h requests.now replies.old most)
        × (replies.new ≡ answered h requests.now replies.old most) }
{
    let (asked, _) = requests.as_chunks::<12>();
    let count = most.min(asked.len()).min(replies.len() / 16);
    // By number: of what `as_chunks_mut` lends its contract does not say what it ends as.
    for n in 0..count {
        let reply = S::step(&mut h, decode(asked[n]));
        let at = n * 16;
        replies[at..at + 16].copy_from_slice(&encode(reply));
    }
    Served { house: h, count }
}

pub fn turn(h: House, requests: &[u8], replies: &mut [u8], most: usize) -> Served
    ensures { (result ≡ turned h requests.now replies.old most)
        × (replies.new ≡ answered h requests.now replies.old most) }
{
    serve::<ByValue>(h, requests, replies, most)
}

pub fn turn_in_place(h: House, requests: &[u8], replies: &mut [u8], most: usize) -> Served
    ensures { (result ≡ turned h requests.now replies.old most)
        × (replies.new ≡ answered h requests.now replies.old most) }
{
    serve::<InPlace>(h, requests, replies, most)
}
