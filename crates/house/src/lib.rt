// The types of the desk: the house it keeps, the requests it takes, the replies it gives.
// What they mean, and what the desk does with them, is said in specs/. Bytes that name an operation or a rule are taken for it here, and
// what is refused gets its number.

#![tactic(auto)]

ghost use Rattle.std.specs.Prelude.{◌≡◌};
ghost use Rattle.house.specs.Rules.{number, Decodes};
ghost use Rattle.house.specs.Opening.{misfit_number, Names};

// A row of the committed table. Its level is fixed.
#[derive(Clone, Copy)]
pub struct Item {
    pub level: u8,
    pub value: u32,
    pub version: u32,
}

#[derive(Clone, Copy, PartialEq, Eq)]
pub enum Standing {
    Free,
    Active,
    Certified,
}

// Where a transaction stands while it is open. The ticket of a free place is 0, and stands beside the standing and not in it: the rules say
// so (`vacant`, and `ticketless` of `Kept`), and a lookup passes most places by their tickets.
#[derive(Clone, Copy)]
pub struct Place {
    pub standing: Standing,
    pub ticket: u32,
}

// When the signals are given: at certify, or at commit (specs/Rules.antt, `signals_at`).
#[derive(Clone, Copy, PartialEq, Eq)]
pub enum Rule {
    A,
    B,
}

// In a turn the house passes through each step by value: one struct of arrays, the form that document 01 names, of fixed size and with no
// heap. Of its 64 rows the first `count` are items; a next ticket of 0 says that there is none (`next_at`). Its order is a table of 4 by 4 bytes, row by row, where 1 says that the column's level
// dominates the row's. Of the two versions of an item the committed one stands in its row; "a pending
// value, 0 when nobody has written" in a table beside it, so that a write stores four bytes and an abort touches no row. Place p of level l is number
// l * 8 + p; a cell is a byte, the sum of the weights of its marks, and the cells of one place lie together, so that a
// transaction's own 64 are scanned in one sweep. The rule, a byte, stands last, so that the tables lie where they did.
#[derive(Clone, Copy)]
pub struct House {
    pub count: usize,
    pub order: [u8; 16],
    pub items: [Item; 64],
    pub pending: [u32; 64],
    pub places: [Place; 32],
    pub next: [u32; 4],
    pub cells: [u8; 2048],
    pub rule: Rule,
}

// Another number than 0 and 1 names no rule.
impl TryFrom<u8> for Rule {
    type Error = Misfit;

    ghost try_from_gives = { Names };

    fn try_from(number: u8) -> Result<Rule, Misfit> {
        match number {
            0 => Ok(Rule::A),
            1 => Ok(Rule::B),
            _ => Err(Misfit::Rule),
        }
    }
}

// The marks that a lock cell may have, with their weights.
#[derive(Clone, Copy)]
pub enum Mark {
    Read = 1,
    Write = 2,
    Certify = 4,
    Signalled = 8,
}

// What a request asks for.
#[derive(Clone, Copy, PartialEq, Eq)]
pub enum Operation {
    Begin = 0,
    Read = 1,
    Write = 2,
    Certify = 3,
    Commit = 4,
    Abort = 5,
    Ask = 6,
}

impl TryFrom<u8> for Operation {
    type Error = Refusal;

    ghost try_from_gives = { Decodes };

    fn try_from(number: u8) -> Result<Operation, Refusal> {
        match number {
            0 => Ok(Operation::Begin),
            1 => Ok(Operation::Read),
            2 => Ok(Operation::Write),
            3 => Ok(Operation::Certify),
            4 => Ok(Operation::Commit),
            5 => Ok(Operation::Abort),
            6 => Ok(Operation::Ask),
            _ => Err(Refusal::NoOperation),
        }
    }
}

// Any bytes are a request, and a reply repeats them: so the operation and the level stand in it as they came.
#[derive(Clone, Copy)]
pub struct Request {
    pub operation: u8,
    pub level: u8,
    pub item: u16,
    pub ticket: u32,
    pub value: u32,
}

// Its number is a byte, as it goes out: 0, 1, or that of a `Refusal` or a `Misfit`.
#[derive(Clone, Copy)]
pub struct Reply {
    pub number: u8,
    pub operation: u8,
    pub item: u16,
    pub ticket: u32,
    pub value: u32,
    pub version: u32,
}

// Why a request is refused: the rows of the table of numbers, in the order in which they are checked.
#[derive(Clone, Copy, PartialEq, Eq)]
pub enum Refusal {
    NoOperation = 3,
    NoLevel = 4,
    UnusedSet = 5,
    Unknown = 6,
    NoItem = 7,
    Forbidden = 8,
    BlankSheet = 15,
    Stopped = 2,
    Untimely = 9,
    WornOut = 10,
    Crowded = 11,
    Ticketless = 12,
}

impl From<Refusal> for u8 {
    ghost from_gives = { λ refusal n. n ≡ number refusal };

    fn from(refusal: Refusal) -> u8 {
        refusal as u8
    }
}

// Why an opening is refused.
#[derive(Clone, Copy, PartialEq, Eq)]
pub enum Misfit {
    Length = 13,
    Level = 14,
    Order = 16,
    Rule = 28,
}

impl From<Misfit> for u8 {
    ghost from_gives = { λ misfit n. n ≡ misfit_number misfit };

    fn from(misfit: Misfit) -> u8 {
        misfit as u8
    }
}

// What a request is answered; specs/Rules.antt (`replied`) gives the number and the values of each.
#[derive(Clone, Copy)]
pub enum Answer {
    // the number, and no `Refusal`, since `parts::reply_to` answers with any
    Refused(u8),
    // the holder's ticket, and its level
    Delayed(u32, u32),
    Done,
    Ticket(u32),
    Pair(u32, u32),
    Signals(u16, u32),
}

// What a request yields: the next house and the reply.
#[derive(Clone, Copy)]
pub struct Outcome {
    pub house: House,
    pub reply: Reply,
}

// What an opening yields: a house, refused or not, and why it is refused.
#[derive(Clone, Copy)]
pub struct Opening {
    pub misfit: Option<Misfit>,
    pub house: House,
}
