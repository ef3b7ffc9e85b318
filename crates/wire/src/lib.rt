// Requests and replies on the wire: any 12 bytes are a request, and every reply is 16 bytes.

#![tactic(auto)]

ghost use Rattle.std.specs.Prelude.{◌≡◌};
ghost use Rattle.wire.specs.Wire.{request_at, request_bytes, reply_bytes};

use house::{Reply, Request};

#[tactic(auto, unfolding(crate::specs::Wire::request_at))]
pub fn decode(b: [u8; 12]) -> Request
    ensures { result ≡ request_at b 0 }
{
    Request {
        operation: b[0],
        level: b[1],
        item: u16::from_le_bytes([b[2], b[3]]),
        ticket: u32::from_le_bytes([b[4], b[5], b[6], b[7]]),
        value: u32::from_le_bytes([b[8], b[9], b[10], b[11]]),
    }
}

#[tactic(auto, unfolding(crate::specs::Wire::request_bytes))]
pub fn encode_request(q: Request) -> [u8; 12]
    ensures { result ≡ request_bytes q }
{
    let mut bytes = [0; 12];
    bytes[0] = q.operation;
    bytes[1] = q.level;
    bytes[2..4].copy_from_slice(&q.item.to_le_bytes());
    bytes[4..8].copy_from_slice(&q.ticket.to_le_bytes());
    bytes[8..].copy_from_slice(&q.value.to_le_bytes());
    bytes
}

// Item, ticket and value stand as in a request; a function for these three lines would be no shorter.
#[tactic(auto, unfolding(crate::specs::Wire::reply_bytes))]
pub fn encode(r: Reply) -> [u8; 16]
    ensures { result ≡ reply_bytes r }
{
    let mut bytes = [0; 16];
    bytes[0] = r.number;
    bytes[1] = r.operation;
    bytes[2..4].copy_from_slice(&r.item.to_le_bytes());
    bytes[4..8].copy_from_slice(&r.ticket.to_le_bytes());
    bytes[8..12].copy_from_slice(&r.value.to_le_bytes());
    bytes[12..].copy_from_slice(&r.version.to_le_bytes());
    bytes
}
