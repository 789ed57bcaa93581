// Received bytes handed to a link, with a poll after each consume: replies are thrown away, refusals passed over.
ghost use Rattle.std.specs.Prelude.{◌≡◌, ◌+◌, ◌<◌, ◌^◌, length};
ghost use Rattle.framing.specs.Drops.{together, all_of};
ghost use Rattle.link.specs.Link.{Polls};
ghost use Rattle.feeding.specs.Feed.{started, idle_after, fed_link, Feeds, progress_of, one_turn};

use framing::drops::Drops;
use link::choices::Choices;
use link::pppos::{Consumed, PPPoS, Polled};

#[derive(Clone, Copy)]
pub struct Fed {
    pub count: usize,
    pub link: PPPoS,
    // What all its consumes dropped.
    pub drops: Drops,
}

// A fresh link with no name and no password, opened and polled once.
pub fn start(choices: Choices, tx: &mut [u8], rx: &mut [u8]) -> Polled
    ensures { Polls (started choices tx.old rx.old) result.action result.link tx.new rx.new }
{
    let made = PPPoS::new(b"", b"", choices);
    made.link.open().link.poll(tx, rx)
}

// No `Add`: it is no sum of whole numbers for any two.
fn together(c: Drops, d: Drops) -> Drops
    requires { all_of c + all_of d < 2 ^ 64 }
    ensures { result ≡ together c d }
{
    Drops {
        aborted: c.aborted + d.aborted,
        short: c.short + d.short,
        control: c.control + d.control,
        check: c.check + d.check,
        overrun: c.overrun + d.overrun,
    }
}

// One consume, one poll; what it drops is added to what was dropped before.
fn turn(link: PPPoS, before: Drops, tx: &mut [u8], rx: &mut [u8], src: &[u8]) -> Fed
    requires { all_of before + length src.now < 2 ^ 64 }
    ensures { Feeds (one_turn (progress_of link tx.old rx.old src.now before)) src.now result.count result.link result.drops tx.new rx.new }
{
    let Consumed { taken, link, drops } = link.consume(src, rx);
    Fed {
        count: taken.unwrap_or(0),
        link: link.poll(tx, rx).link,
        drops: together(before, drops),
    }
}

fn idle_after(idle: usize, n: usize) -> usize
    requires { idle < 2 }
    ensures { result ≡ idle_after idle n }
{
    if n == 0 { idle + 1 } else { 0 }
}

// What is not consumed is handed in again. Two turns in a row that take nothing end it: the transmit or the receive buffer is too small.
pub fn feed(link: PPPoS, tx: &mut [u8], rx: &mut [u8], src: &[u8]) -> Fed
    ensures { Feeds (fed_link link tx.old rx.old src.now) src.now result.count result.link result.drops tx.new rx.new }
{
    let mut fed = Fed {
        count: 0,
        link,
        drops: Drops::none(),
    };
    let mut rest = src;
    let mut idle = 0;
    while !rest.is_empty() && idle < 2 {
        let t = turn(fed.link, fed.drops, tx, rx, rest);
        idle = idle_after(idle, t.count);
        rest = &rest[t.count..];
        fed = Fed {
            count: fed.count + t.count,
            ..t
        };
    }
    fed
}
