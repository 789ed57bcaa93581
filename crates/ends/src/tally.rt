// How the meetings ended.
ghost use Rattle.std.specs.Prelude.{◌<◌};

use crate::end::End;
use crate::meeting::Pair;
use crate::offer::{Known, ids, is_set, knows};
use link::pppos::PPPoS;
use phases::ppp::Phase;
use std::io;

// How many ends, and the fewest and the most frames that one wrote.
#[derive(Clone, Copy)]
struct Frames {
    ends: usize,
    least: usize,
    most: usize,
}

// Meetings; ends that are open, and that know the other's values as offered; refused calls, steps that took nothing, ids that passed
// 255. Then the frames, by how many ends offer name servers.
#[derive(Drop)]
pub(crate) struct Tally {
    meetings: usize,
    opened: usize,
    offered: usize,
    refused: usize,
    stuck: usize,
    rounds: usize,
    frames: [Frames; 3],
}

fn is_open(link: PPPoS) -> bool {
    matches!(link.ppp.phase, Phase::Open)
        && link.ppp.lcp.state.is_opened()
        && link.ppp.ipv4cp.state.is_opened()
}

fn add(n: &mut usize, more: usize) {
    *n = n.saturating_add(more);
}

impl Frames {
    // One end, which wrote `n` frames.
    fn take(&mut self, n: usize) {
        add(&mut self.ends, 1);
        self.least = self.least.min(n);
        self.most = self.most.max(n);
    }

    fn show(&self, rt: &impl Print, name: &str) -> io::Result<()> {
        if self.ends == 0 {
            return Ok(());
        }
        println!(rt; "{name} ends: {}", self.ends)?;
        println!(rt; "    fewest frames written by one: {}", self.least)?;
        println!(rt; "    most: {}", self.most)
    }
}

impl Tally {
    pub(crate) fn new() -> Self {
        let none = Frames {
            ends: 0,
            least: usize::MAX,
            most: 0,
        };
        Tally {
            meetings: 0,
            opened: 0,
            offered: 0,
            refused: 0,
            stuck: 0,
            rounds: 0,
            frames: [none; 3],
        }
    }

    // An id that is smaller than before has passed 255: no meeting uses so many.
    fn take_end(&mut self, end: &End, hoped: Known) {
        add(&mut self.opened, usize::from(is_open(end.link)));
        add(&mut self.offered, usize::from(knows(end.link) == hoped));
        add(&mut self.refused, end.refused);
        add(&mut self.stuck, end.stuck);
        for (now, before) in ids(end.link).iter().zip(end.ids.iter()) {
            add(&mut self.rounds, usize::from(now < before));
        }
    }

    // A meeting; bits 4 and 5 of `c` say which end offered no name servers.
    pub(crate) fn take(&mut self, pair: &Pair, c: u8) {
        add(&mut self.meetings, 1);
        self.take_end(&pair.a, pair.to_a);
        self.take_end(&pair.b, pair.to_b);
        let frames = &mut self.frames[usize::from(!is_set(c, 16)) + usize::from(!is_set(c, 32))];
        frames.take(pair.a.frames());
        frames.take(pair.b.frames());
    }

    pub(crate) fn show(&self, rt: &impl Print) -> io::Result<()> {
        println!(rt; "meetings of two ends: {}", self.meetings)?;
        println!(rt;
            "ends in phase Open with LCP and IPv4CP Opened: {}",
            self.opened
        )?;
        println!(rt;
            "ends that know map and address as offered: {}",
            self.offered
        )?;
        println!(rt; "refused calls: {}", self.refused)?;
        println!(rt;
            "steps that were handed bytes and took none: {}",
            self.stuck
        )?;
        println!(rt; "ids that passed 255: {}", self.rounds)?;
        let [none, one, both] = &self.frames;
        none.show(rt, "no end offers name servers,")?;
        one.show(rt, "one end offers name servers,")?;
        both.show(rt, "both ends offer name servers,")
    }
}
