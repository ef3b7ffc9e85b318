// The judge: what is ruled of a request, over the parts of the house that its level can see. It changes nothing, so a
// refusal or a delay leaves the house as it was by construction.

#![tactic(auto)]

ghost use Rattle.std.specs.Prelude.{◌≡◌, ◌||◌, ◌+◌, ◌*◌, ◌<◌, leb};
ghost use Rattle.house.specs.Cell.{is_signalled};
ghost use Rattle.house.specs.House.{vacancy};
ghost use Rattle.house.specs.Rules.{code, no_level, unused_set};
ghost use Rattle.ruling.specs.declared.Ruling.TheVariants.{Grant};
ghost use Rattle.ruling.specs.Judged.{Judged, begin_ruled, read_ruled, write_ruled, certify_ruled, commit_ruled, known_ruled};

use house::{Answer, Mark, Operation, Place, Refusal, Request, Standing};
use locks::{answer_ask, answer_read, certify_holder, read_holder, write_holder};
use parts::{dominates, holds_any};
use places::{lookup, lowest_free};
use ruling::{Case, Change, Ruling, View};

// A case of a place that a house has, with the operation that its request names.
#[derive(Clone, Copy)]
struct Known {
    operation: Operation,
    case: Case,
    ghost named: { code operation ≡ case.request.operation },
    ghost there: { case.me < 32 },
}

fn no_level(q: Request) -> bool
    ensures { result ≡ no_level q }
{
    3 < q.level
}

// Without a branch, since a `match` of the operation here is mispredicted: 3 ns a request.
fn unused_set(operation: Operation, q: Request) -> bool
    requires { code operation ≡ q.operation }
    ensures { result ≡ unused_set q }
{
    let begins = operation == Operation::Begin;
    let reads = operation == Operation::Read;
    let writes = operation == Operation::Write;
    (!(reads | writes) & (q.item != 0)) | (begins & (q.ticket != 0)) | (!writes & (q.value != 0))
}

// Made here, and not where it is returned, a grant is stored in fewer pieces: six to ten instructions less for a done request.
fn grant(answer: Answer, change: Change) -> Ruling
    ensures { result ≡ Grant answer change }
{
    Ruling::Grant(answer, change)
}

// The house has 64 rows, whatever its count says.
fn lacks_item(count: usize, i: usize) -> bool
    ensures { result ≡ (leb count i || leb 64 i) }
{
    (count <= i) | (64 <= i)
}

fn is_signalled(cells: &[u8; 2048], me: usize) -> bool
    requires { me < 32 }
    ensures { result ≡ is_signalled cells.now me }
{
    holds_any(cells, Mark::Signalled, me)
}

fn judge_begin(eight: [Place; 8], ticket: u32, level: usize) -> Ruling
    requires { level < 4 }
    ensures { result ≡ begin_ruled (vacancy eight 0) ticket level }
{
    let Some(k) = lowest_free(eight) else {
        return Ruling::Refuse(Refusal::Crowded);
    };
    if ticket == 0 {
        return Ruling::Refuse(Refusal::Ticketless);
    }
    let first = level * 8;
    let me = first + k;
    grant(Answer::Ticket(ticket), Change::Begin(level, me))
}

fn judge_read(known: Known, cells: &[u8; 2048]) -> Ruling
    ensures { result ≡ read_ruled known.case cells.now }
{
    let case = known.case;
    let q = case.request;
    let order = case.order;
    let x = case.row;
    let reader = case.me;
    let i = q.item as usize;
    if lacks_item(case.count, i) {
        return Ruling::Refuse(Refusal::NoItem);
    }
    if !dominates(order, q.level, x.level) {
        return Ruling::Refuse(Refusal::Forbidden);
    }
    if is_signalled(cells, reader) {
        return Ruling::Refuse(Refusal::Stopped);
    }
    if case.seat.standing == Standing::Certified {
        return Ruling::Refuse(Refusal::Untimely);
    }
    if let Some(p) = read_holder(cells, reader, i) {
        return Ruling::Wait(p);
    }
    grant(
        answer_read(cells, x, case.pending, reader, i),
        Change::Read(reader, i),
    )
}

fn judge_write(known: Known, cells: &[u8; 2048]) -> Ruling
    ensures { result ≡ write_ruled known.case cells.now }
{
    let case = known.case;
    let q = case.request;
    let x = case.row;
    let writer = case.me;
    let i = q.item as usize;
    if lacks_item(case.count, i) {
        return Ruling::Refuse(Refusal::NoItem);
    }
    if x.level != q.level {
        return Ruling::Refuse(Refusal::Forbidden);
    }
    if q.value == 0 {
        return Ruling::Refuse(Refusal::BlankSheet);
    }
    if is_signalled(cells, writer) {
        return Ruling::Refuse(Refusal::Stopped);
    }
    if case.seat.standing == Standing::Certified {
        return Ruling::Refuse(Refusal::Untimely);
    }
    if u32::MAX <= x.version {
        return Ruling::Refuse(Refusal::WornOut);
    }
    if let Some(p) = write_holder(cells, writer, i) {
        return Ruling::Wait(p);
    }
    grant(Answer::Done, Change::Write(writer, i, q.value))
}

fn judge_certify(known: Known, cells: &[u8; 2048]) -> Ruling
    ensures { result ≡ certify_ruled known.case cells.now }
{
    let case = known.case;
    let certifier = case.me;
    if is_signalled(cells, certifier) {
        return Ruling::Refuse(Refusal::Stopped);
    }
    if case.seat.standing == Standing::Certified {
        return Ruling::Refuse(Refusal::Untimely);
    }
    if let Some(p) = certify_holder(cells, certifier) {
        return Ruling::Wait(p);
    }
    grant(Answer::Done, Change::Certify(certifier))
}

fn judge_commit(known: Known, cells: &[u8; 2048]) -> Ruling
    ensures { result ≡ commit_ruled known.case cells.now }
{
    let case = known.case;
    let committer = case.me;
    if is_signalled(cells, committer) {
        return Ruling::Refuse(Refusal::Stopped);
    }
    if case.seat.standing == Standing::Active {
        return Ruling::Refuse(Refusal::Untimely);
    }
    grant(Answer::Done, Change::Commit(committer))
}

// Past the checks 3, 4, 5 and 6. A begin, which was told from the others before, has no case; what is said of it is what `known_ruled` says.
fn judge_known(known: Known, cells: &[u8; 2048]) -> Ruling
    ensures { result ≡ known_ruled known.case cells.now }
{
    let me = known.case.me;
    match known.operation {
        Operation::Read => judge_read(known, cells),
        Operation::Write => judge_write(known, cells),
        Operation::Certify => judge_certify(known, cells),
        Operation::Commit => judge_commit(known, cells),
        Operation::Abort => grant(Answer::Done, Change::Abort(me)),
        Operation::Begin | Operation::Ask => grant(answer_ask(cells, me), Change::Nothing),
    }
}

pub fn judge(view: View, cells: &[u8; 2048], q: Request) -> Ruling
    ensures { Judged view cells.now q result }
{
    let operation = match Operation::try_from(q.operation) {
        Ok(operation) => operation,
        Err(refusal) => return Ruling::Refuse(refusal),
    };
    if no_level(q) {
        return Ruling::Refuse(Refusal::NoLevel);
    }
    if unused_set(operation, q) {
        return Ruling::Refuse(Refusal::UnusedSet);
    }
    let level = q.level as usize;
    let eight = view.eight;
    if operation == Operation::Begin {
        return judge_begin(eight, view.ticket, level);
    }
    let Some(k) = lookup(eight, q.ticket) else {
        return Ruling::Refuse(Refusal::Unknown);
    };
    let seat = eight[k];
    let order = view.order;
    let row = view.row;
    let first = level * 8;
    let me = first + k;
    let case = Case {
        request: q,
        count: view.count,
        order,
        row,
        pending: view.pending,
        me,
        seat,
    };
    judge_known(Known { operation, case }, cells)
}
