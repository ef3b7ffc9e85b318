// What is ruled of a request: refused, delayed, or granted, with the change of the house that goes with it.
// The judge sees parts of the house and changes nothing; the change is made elsewhere, for done requests only.

#![tactic(auto)]

use house::{Answer, Item, Place, Refusal, Request};

// What specs/Ruling.antt (`effect`) makes of a house.
#[derive(Clone, Copy)]
pub enum Change {
    Nothing,
    // the level, and its place
    Begin(usize, usize),
    // the place, and the item
    Read(usize, usize),
    // the place, the item, and the value
    Write(usize, usize, u32),
    // the place
    Certify(usize),
    // the place
    Commit(usize),
    // the place
    Abort(usize),
}

// An enum of its own and no `Result`: that would take a struct for what is granted, an enum for the other two and a `From` between the
// refusals, and, to save the `return` of each check by `?`, a call around each test.
#[derive(Clone, Copy)]
pub enum Ruling {
    Grant(Answer, Change),
    // the holder's place. It may be of a level that the judge is not shown, so the holder is named where the house is
    Wait(usize),
    Refuse(Refusal),
}

// What the judge is shown of a house, beside its cells: the order of the levels, of the request's level the eight places and the next
// ticket, of its item the row and the pending value.
#[derive(Clone, Copy)]
pub struct View {
    pub count: usize,
    pub order: [u8; 16],
    pub eight: [Place; 8],
    pub ticket: u32,
    pub row: Item,
    pub pending: u32,
}

// A request whose transaction was found, with what is looked at of the view, which brings eight places more. It holds no fact,
// since `found` makes one of any place: it stands at place `me`, whose row is `seat`.
#[derive(Clone, Copy)]
pub struct Case {
    pub request: Request,
    pub count: usize,
    pub order: [u8; 16],
    pub row: Item,
    pub pending: u32,
    pub me: usize,
    pub seat: Place,
}
