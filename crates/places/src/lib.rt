// The searches over the eight places of one level, which are looked at as if they were those of level 0.

#![tactic(auto)]

ghost use Rattle.std.specs.Prelude.{◌≡◌};
ghost use Rattle.house.specs.House.{seek, vacancy};

use house::{Place, Standing};

// The search goes round from the ticket modulo 8 and stops at the place found. Ticket 0 names nobody: it is told once, before the
// search, not at each place. Document 01 names the form, a loop that yields the place by `break`.
#[tactic(auto, using(crate::proofs::Rounds::made, house::proofs::Places::zero_nowhere), unfolding(house::specs::House::seek))]
pub fn lookup(eight: [Place; 8], ticket: u32) -> Option<usize>
    ensures { result ≡ seek eight 0 ticket }
{
    if ticket == 0 {
        return None;
    }
    let start = (ticket % 8) as usize;
    let mut k = 0;
    loop {
        if k == 8 {
            break None;
        }
        let next = (start + k) % 8;
        let seat = &eight[next];
        if (seat.ticket == ticket) & (seat.standing != Standing::Free) {
            break Some(next);
        }
        k += 1;
    }
}

pub fn lowest_free(eight: [Place; 8]) -> Option<usize>
    ensures { result ≡ vacancy eight 0 }
{
    (0..8).find(|k| eight[*k].standing == Standing::Free)
}
