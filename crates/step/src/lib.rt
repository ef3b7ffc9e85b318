// One request: the judge, and then the change that it names. A refusal or a delay leaves the house as it was. The step is taken where
// the house lies, or, by value, of a house that is given and handed back.

#![tactic(auto)]

ghost use Rattle.std.specs.Prelude.{◌≡◌};
ghost use Rattle.house.specs.Rules.{stepped};
ghost use Rattle.ruling.specs.Judged.{Shown};

use house::{Answer, House, Outcome, Reply, Request};
use judge::judge;
use parts::{delayed_by, reply_to};
use perform::perform_in_place;
use ruling::{Ruling, View};

// What the judge is shown of the house. A level or an item that it has not is shown as another: the judge looks at neither.
fn view(h: &House, q: Request) -> View
    ensures { Shown h.now q result h.now.cells }
{
    let level = usize::from(q.level % 4);
    let item = usize::from(q.item % 64);
    let (levels, _) = h.places.as_chunks::<8>();
    View {
        count: h.count,
        order: h.order,
        eight: levels[level],
        ticket: h.next[level],
        row: h.items[item],
        pending: h.pending[item],
    }
}

pub fn step_in_place(h: &mut House, q: Request) -> Reply
    ensures { stepped h.old q ≡ record { house = h.new; reply = result } }
{
    let view = view(h, q);
    let answer = match judge(view, &h.cells, q) {
        Ruling::Grant(answer, change) => {
            perform_in_place(h, change);
            answer
        }
        Ruling::Wait(p) => delayed_by(h.places[p], p),
        Ruling::Refuse(refusal) => Answer::Refused(u8::from(refusal)),
    };
    reply_to(q, answer)
}

pub fn step(mut h: House, q: Request) -> Outcome
    ensures { result ≡ stepped h q }
{
    let reply = step_in_place(&mut h, q);
    Outcome { house: h, reply }
}
