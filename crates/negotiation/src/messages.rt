// The packets that negotiation sends: protocol and id are all that they take from an automaton.
ghost use Rattle.std.specs.Prelude.{◌≡◌, ◌≤◌, length};
ghost use Rattle.options.specs.Wire.{max_packet, pkt_of};
ghost use Rattle.options.specs.Reply.{Ready};
ghost use Rattle.negotiation.specs.Messages.{max_rejected, next_id, request_bytes, code_of, reply_bytes, term_ack_bytes, echo_bytes, reject_bytes};

use crate::replies::{emit, emit_packet};
use options::proto::{Proto, Verdict};
use options::walk::Reply;
use options::wire::{
    CONFIGURE_ACK, CONFIGURE_NACK, CONFIGURE_REJ, CONFIGURE_REQ, ECHO_REPLY, LCP, MAX_PACKET,
    PROTOCOL_REJ, Packet, TERMINATE_ACK,
};

// The longest packet that Protocol-Reject carries back: protocol, code, id and Length stand before it.
pub(crate) const MAX_REJECTED: usize = MAX_PACKET - 6;

// 255 goes to 0.
pub(crate) fn next_id(id: u8) -> u8
    ensures { result ≡ next_id id }
{
    id.wrapping_add(1)
}

// An own request.
pub(crate) fn request_packet(p: Proto, id: u8) -> Packet
    ensures { result ≡ pkt_of (request_bytes p id) }
{
    emit_packet(p.protocol(), CONFIGURE_REQ, id, p.own_options())
}

fn reply_code(v: Verdict) -> u8
    ensures { result ≡ code_of v }
{
    match v {
        Verdict::Ack => CONFIGURE_ACK,
        Verdict::Nack => CONFIGURE_NACK,
        Verdict::Rej => CONFIGURE_REJ,
    }
}

// The packet that says a reply, under the id of the request.
pub(crate) fn reply_packet(id: u8, r: Reply) -> Packet
    requires { Ready r }
    ensures { result ≡ pkt_of (reply_bytes id r) }
{
    emit_packet(r.proto.protocol(), reply_code(r.verdict), id, r.packet)
}

pub(crate) fn terminate_ack_packet(p: Proto, id: u8) -> Packet
    ensures { result ≡ pkt_of (term_ack_bytes p id) }
{
    emit_packet(p.protocol(), TERMINATE_ACK, id, Packet::blank())
}

// The echo of a packet that has a code.
pub(crate) fn echo_packet(q: Proto, p: &[u8]) -> Packet
    requires { (3 ≤ length p.now) × (length p.now ≤ max_packet) }
    ensures { result ≡ pkt_of (echo_bytes q p.now) }
{
    let [a, b] = q.protocol().to_be_bytes();
    Packet::blank()
        .push_all(&[a, b, ECHO_REPLY])
        .push_all(&p[3..])
}

// Protocol-Reject is LCP's, whichever protocol the packet has.
pub(crate) fn reject_packet(id: u8, pkt: &[u8]) -> Packet
    requires { length pkt.now ≤ max_rejected }
    ensures { result ≡ pkt_of (reject_bytes id pkt.now) }
{
    emit(LCP, PROTOCOL_REJ, id, pkt)
}
