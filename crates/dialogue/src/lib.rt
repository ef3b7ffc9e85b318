// A dialogue with the desk over a stream of bytes: the opening, then requests, in pieces of any size. What is unfinished is
// left with the caller, who gives it again with what follows it; so a dialogue needs no bytes of its own.

#![tactic(auto)]

ghost use Rattle.std.specs.Prelude.{◌≡◌, ◌≤◌, ◌<◌, length, drop};
ghost use Rattle.dialogue.specs.Dialogue.{announced, opening_of, decided, refusal, started, ended, serves, opens, fed, kept, heard};

use desk::turn;
use house::{House, Misfit, Opening, Reply, Rule};
use opening::{is_wrong_count, open};
use wire::encode;

// Before the opening came, after it, and after a refused opening, with its number: a number and no `Misfit`, since `feed`, `hear` and
// `finish` take a stage with any.
#[derive(Clone, Copy)]
pub enum Stage {
    Waiting,
    Open,
    Refused(u8),
}

#[derive(Clone, Copy)]
pub struct Dialogue {
    pub stage: Stage,
    pub house: House,
}

// The next dialogue, how many bytes it used, and how many reply bytes were written: counts beside bytes that are the caller's, and lent.
#[derive(Clone, Copy)]
pub struct Fed {
    pub dialogue: Dialogue,
    pub used: usize,
    pub written: usize,
}

// The next dialogue, how many bytes are kept at the front of the buffer, and how many reply bytes are to be written; the
// bytes are the caller's here too.
#[derive(Clone, Copy)]
pub struct Heard {
    pub dialogue: Dialogue,
    pub have: usize,
    pub written: usize,
}

#[tactic(auto, unfolding(crate::specs::Dialogue::started))]
pub fn start() -> Dialogue
    ensures { result ≡ started }
{
    Dialogue {
        stage: Stage::Waiting,
        house: open(b"", b"", Rule::A).house,
    }
}

// The stage at the end of the input.
pub fn finish(stage: Stage) -> Stage
    ensures { result ≡ ended stage }
{
    match stage {
        Stage::Waiting => Stage::Refused(u8::from(Misfit::Length)),
        other => other,
    }
}

// Of any number: that of a stage may be any.
#[tactic(auto, unfolding(crate::specs::Dialogue::refusal))]
pub fn refuse(number: u8) -> [u8; 16]
    ensures { result ≡ refusal number }
{
    encode(Reply {
        number,
        operation: 0,
        item: 0,
        ticket: 0,
        value: 0,
        version: 0,
    })
}

fn first(bytes: &[u8]) -> usize
    ensures { (result ≡ announced bytes.now) × (result < 256) }
{
    usize::from(bytes.first().copied().unwrap_or(0))
}

#[tactic(auto, unfolding(crate::specs::Dialogue::decided))]
fn is_decided(bytes: &[u8]) -> bool
    ensures { result ≡ decided bytes.now }
{
    let n = first(bytes);
    n + 17 <= bytes.len() || (!bytes.is_empty() && is_wrong_count(n))
}

// What is cut short is opened as no levels and no table, which gets 13 as well.
fn open_front(bytes: &[u8]) -> Opening
    ensures { result ≡ opening_of bytes.now }
{
    let n = first(bytes);
    let Some(table) = bytes.get(n + 1..n + 17) else {
        return open(b"", b"", Rule::A);
    };
    open(&bytes[1..n + 1], table, Rule::A)
}

// The requests past the first k bytes.
fn serve(h: House, k: usize, bytes: &[u8], replies: &mut [u8]) -> Fed
    requires { k ≤ length bytes.now }
    ensures { (result, replies.new) ≡ serves h k bytes.now replies.old }
{
    let served = turn(h, &bytes[k..], replies, bytes.len());
    Fed {
        dialogue: Dialogue {
            stage: Stage::Open,
            house: served.house,
        },
        used: k + served.count * 12,
        written: served.count * 16,
    }
}

fn open_and_serve(bytes: &[u8], replies: &mut [u8]) -> Fed
    ensures { (result, replies.new) ≡ opens bytes.now replies.old }
{
    let Opening { misfit, house } = open_front(bytes);
    match misfit {
        None => serve(house, first(bytes) + 17, bytes, replies),
        Some(misfit) => Fed {
            dialogue: Dialogue {
                stage: Stage::Refused(u8::from(misfit)),
                house,
            },
            used: bytes.len(),
            written: 0,
        },
    }
}

// Takes the bytes that came, those not used before among them, and writes the replies.
pub fn feed(s: Dialogue, bytes: &[u8], replies: &mut [u8]) -> Fed
    ensures { (result, replies.new) ≡ fed s bytes.now replies.old }
{
    match s.stage {
        Stage::Waiting if is_decided(bytes) => open_and_serve(bytes, replies),
        Stage::Waiting => Fed {
            dialogue: s,
            used: 0,
            written: 0,
        },
        Stage::Open => serve(s.house, 0, bytes, replies),
        Stage::Refused(_) => Fed {
            dialogue: s,
            used: bytes.len(),
            written: 0,
        },
    }
}

// Moves what was not used to the front, and says how much that is.
fn keep(bytes: &mut [u8], used: usize) -> usize
    ensures { (result ≡ length (drop used bytes.old)) × (bytes.new ≡ kept used bytes.old) }
{
    let used = used.min(bytes.len());
    bytes.copy_within(used.., 0);
    bytes.len() - used
}

// All that stands between a read and a write. The buffer begins with `have` bytes that were not used before, and a read put
// `got` more behind them; what is not used now is moved to the front.
pub fn hear(s: Dialogue, buffer: &mut [u8], have: usize, got: usize, replies: &mut [u8]) -> Heard
    ensures { (result, buffer.new, replies.new) ≡ heard s buffer.old have got replies.old }
{
    let end = have.saturating_add(got).min(buffer.len());
    let bytes = &mut buffer[..end];
    let fed = feed(s, bytes, replies);
    let left = keep(bytes, fed.used);
    Heard {
        dialogue: fed.dialogue,
        have: left,
        written: fed.written,
    }
}
