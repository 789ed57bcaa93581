// An uplink that stalls again and again.
use crate::packet::high;
use crate::queue::Queue;
use link::pppos::PPPoS;
use serial::generator::Generator;
use serial::line::unopened;

// In 16 rounds of 64 the link is one that is not open.
fn link_in(round: u32, link: PPPoS) -> PPPoS {
    if round / 16 % 4 == 3 {
        unopened()
    } else {
        link
    }
}

// The generator's number says how many packets are offered, how many sends follow, and into how many bytes. From this start on a test for
// room that is a byte off, in the outbox or in the transmit buffer, would change the counts.
pub(crate) fn run(queue: &mut Queue, link: PPPoS) {
    let mut generator = Generator { state: 11 };
    for round in 0..3200 {
        let x = high(generator.draw());
        queue.offer_some(x % 4);
        queue.send_some(x / 4 % 5, link_in(round, link), x / 20 * 2);
    }
}
