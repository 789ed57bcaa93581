// Packets queue in an outbox while the link is not open, and leave in order once standard input has opened it. Each row of the table
// has the counts since the start: accepted is sent and held together, and `same` are those sent that the other end reads byte for byte
// as the packet whose turn it is.
#![tactic(auto)]

mod arrival;
mod counts;
mod packet;
mod queue;
mod rounds;
mod uplink;

use crate::counts::header;
use crate::packet::LONGEST;
use crate::queue::{Queue, SIZE};
use crate::uplink::opened;
use link::pppos::PPPoS;
use outbox::outbox::ALWAYS_ENOUGH;
use serial::line::unopened;
use std::io;

fn declined(rt: &impl Print, queue: &mut Queue) -> io::Result<()> {
    queue.accept_short(b"1");
    queue.accept(b"");
    queue.accept(&[0u8; LONGEST + 1]);
    queue.show(
        rt,
        "a buffer one byte short, a packet of 0 bytes, one of 1501",
    )
}

// There is no room for so many packets as there are bytes.
fn stalled(rt: &impl Print, queue: &mut Queue) -> io::Result<()> {
    queue.offer_some(SIZE);
    queue.show(rt, "packets until one is refused")?;
    queue.send_some(5, unopened(), ALWAYS_ENOUGH);
    queue.show(rt, "5 sends")
}

fn drained(rt: &impl Print, queue: &mut Queue, link: PPPoS) -> io::Result<()> {
    queue.send_some(queue.held(), link, ALWAYS_ENOUGH);
    queue.show(rt, "a send for each packet held")
}

// The packet in front is longer than 100 bytes, and stays there.
fn resumed(rt: &impl Print, queue: &mut Queue, link: PPPoS) -> io::Result<()> {
    queue.send_some(5, link, 100);
    queue.show(rt, "5 sends into 100 bytes")?;
    drained(rt, queue, link)
}

fn wrapped(rt: &impl Print, queue: &mut Queue, link: PPPoS) -> io::Result<()> {
    rounds::run(queue, link);
    queue.show(
        rt,
        "3200 rounds of offers and sends, the link not open in a quarter of them",
    )?;
    drained(rt, queue, link)
}

fn main(rt: HostRuntime) -> io::Result<()> {
    let mut queue = Queue::new();
    header(&rt)?;
    uplink::show(&rt, unopened())?;
    declined(&rt, &mut queue)?;
    stalled(&rt, &mut queue)?;
    let link = opened(&mut rt.stdin())?;
    uplink::show(&rt, link)?;
    resumed(&rt, &mut queue, link)?;
    wrapped(&rt, &mut queue, link)
}
