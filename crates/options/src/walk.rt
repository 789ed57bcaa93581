// The options of a configure packet: one off the rest, and the list that is sent back for a request.
ghost use Rattle.std.specs.Prelude.{◌≡◌, ◌+◌, ◌≤◌, length};
ghost use Rattle.options.specs.Wire.{max_packet, pushed_all};
ghost use Rattle.options.specs.Options.{max_option_len, max_listed, option_of, opt_bytes, sent_back, walk_of};
ghost use Rattle.options.specs.Reply.{fresh_reply, refused_by, with_proto, listed_of, step_of, reply_of, Ready};

use crate::proto::{Judged, Proto, Verdict};
use crate::refusal::Refusal;
use crate::wire::{MAX_OPTION_LEN, MAX_OPTIONS, Packet};

// The code of an option, and its length with these two bytes.
#[derive(Clone, Copy, PartialEq, Eq)]
pub struct Head {
    pub code: u8,
    pub len: usize,
}

// The option at the front of `s`, unless it is cut.
pub(crate) fn parse_option(s: &[u8]) -> Option<Head>
    ensures { result ≡ option_of s.now }
{
    if s.len() < 2 {
        return None;
    }
    let len = usize::from(s[1]);
    if s.len() < len || len < 2 {
        return None;
    }
    Some(Head { code: s[0], len })
}

// The value sent back: a part of the request, or of the suggestion list.
pub(crate) fn sent_back<'a>(v: Verdict, d: &'a [u8], suggested: &'a [u8]) -> &'a [u8]
    ensures { result.now ≡ sent_back v d.now suggested.now }
{
    match v {
        Verdict::Nack => suggested,
        Verdict::Ack | Verdict::Rej => d,
    }
}

// The reply so far: its verdict, the options listed as bytes, and what the options changed; `reply_of` says it of a refused walk too.
// `Ready` is no invariant of it: `step_of` and `reply_of`, which theorems cite, are said of every reply.
#[derive(Clone, Copy)]
pub struct Reply {
    pub outcome: Result<(), Refusal>,
    pub verdict: Verdict,
    pub count: usize,
    pub packet: Packet,
    pub proto: Proto,
}

// An option behind what the packet holds.
fn push_option(p: Packet, code: u8, d: &[u8]) -> Packet
    requires { (p.len + max_listed ≤ max_packet) × (length d.now ≤ max_option_len) }
    ensures { result ≡ pushed_all p (opt_bytes code d.now) }
{
    p.push_all(&[code, (d.len() + 2) as u8]).push_all(d)
}

impl Reply {
    fn fresh(p: Proto) -> Self
        ensures { (result ≡ fresh_reply p) × Ready result }
    {
        Reply {
            outcome: Ok(()),
            verdict: Verdict::Ack,
            count: 0,
            packet: Packet::blank(),
            proto: p,
        }
    }

    fn refused(self, why: Refusal) -> Self
        ensures { result ≡ refused_by self why }
    {
        Reply {
            outcome: Err(why),
            ..self
        }
    }

    // The value `d` is to be sent back for the option `code`, judged as `j`: a higher verdict clears the list, a lower one is not listed.
    fn list(self, j: Judged<Proto>, code: u8, d: &[u8]) -> Self
        requires { Ready self }
        ensures { (result ≡ listed_of self j.proto j.verdict code d.now) × Ready result }
    {
        if self.verdict.outranks(j.verdict) {
            return Reply {
                proto: j.proto,
                ..self
            };
        }
        if MAX_OPTION_LEN < d.len() {
            return self.refused(Refusal::OptionLong);
        }
        if j.verdict.outranks(self.verdict) {
            return Reply {
                outcome: Ok(()),
                verdict: j.verdict,
                count: 1,
                packet: push_option(Packet::blank(), code, d),
                proto: j.proto,
            };
        }
        if MAX_OPTIONS <= self.count {
            return self.refused(Refusal::OptionsMany);
        }
        Reply {
            outcome: Ok(()),
            verdict: j.verdict,
            count: self.count + 1,
            packet: push_option(self.packet, code, d),
            proto: j.proto,
        }
    }

    // One option of the request.
    fn answer_option(self, code: u8, d: &[u8]) -> Self
        requires { Ready self }
        ensures { (result ≡ step_of self code d.now) × Ready result }
    {
        let j = self.proto.peer_option_received(code, d);
        let value = sent_back(j.verdict, d, self.proto.suggestion());
        self.list(j, code, value)
    }
}

// The reply to the options `s` of a request.
pub fn answer_options(p: Proto, s: &[u8]) -> Reply
    ensures { (result ≡ reply_of (fresh_reply p) (walk_of s.now)) × Ready result }
{
    let mut r = Reply::fresh(p);
    let mut t = s;
    while !t.is_empty() {
        let Some(Head { code, len }) = parse_option(t) else {
            return r.refused(Refusal::OptionCut(s.len() - t.len()));
        };
        r = r.answer_option(code, &t[2..len]);
        if r.outcome.is_err() {
            return r;
        }
        t = &t[len..];
    }
    r
}
