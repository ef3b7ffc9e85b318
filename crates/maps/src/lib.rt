// A whole map at once (CR 2): many items read by one call, as single reads of them would be. The reads go through the desk's own turn,
// up to 64 at a time, as the bytes of their requests; so a map has no rule of its own, and whatever a turn learns, it knows.

#![tactic(auto)]

ghost use Rattle.std.specs.Prelude.{◌≡◌, ◌≤◌, length};
ghost use Rattle.maps.specs.Map.{mapped, filled};

use desk::{Served, turn_in_place};
use house::{House, Operation, Request};
use wire::encode_request;

// The map of a part of the items, 64 at most, in one turn. (Of what a `zip` over `asked` leaves nothing is proved.)
fn read_part(h: House, level: u8, ticket: u32, part: &[u16], replies: &mut [u8]) -> Served
    requires { length part.now ≤ 64 }
    ensures { (result ≡ mapped h level ticket part.now replies.old)
        × (replies.new ≡ filled h level ticket part.now replies.old) }
{
    let mut asked = [[0; 12]; 64];
    for (k, item) in part.iter().enumerate() {
        asked[k] = encode_request(Request {
            operation: Operation::Read as u8,
            level,
            item: *item,
            ticket,
            value: 0,
        });
    }
    turn_in_place(h, asked.as_flattened(), replies, part.len())
}

pub fn read_map(mut h: House, level: u8, ticket: u32, items: &[u16], replies: &mut [u8]) -> Served
    ensures { (result ≡ mapped h level ticket items.now replies.old)
        × (replies.new ≡ filled h level ticket items.now replies.old) }
{
    let count = items.len().min(replies.len() / 16);
    // what the parts before had: by `enumerate` it would have to be known that each had 64
    let mut n = 0;
    for part in items[..count].chunks(64) {
        let at = n * 16;
        let served = read_part(h, level, ticket, part, &mut replies[at..]);
        h = served.house;
        n += part.len();
    }
    Served { house: h, count }
}
