// A meeting of two ends: both open, then the bytes under way are passed on in pieces until there are none.
use crate::end::End;
use crate::offer::{Known, hoped};
use serial::generator::Generator;

// Both ends, what each is to know at the end of the meeting, and the generator.
#[derive(Drop)]
pub(crate) struct Pair {
    pub(crate) a: End,
    pub(crate) b: End,
    pub(crate) to_a: Known,
    pub(crate) to_b: Known,
    generator: Generator,
}

impl Pair {
    pub(crate) fn new(seed: u32) -> Self {
        let a = End::new();
        let b = End::new();
        Pair {
            to_a: a.known,
            to_b: b.known,
            a,
            b,
            generator: Generator { state: seed },
        }
    }

    // Both ends open and polled once; the even bits of `c` are for A.
    fn begin(&mut self, c: u8) {
        let x = self.generator.draw();
        let y = self.generator.draw();
        self.a.ready(c == 0, c, x);
        self.b.ready(c == 0, c / 2, y);
        self.to_a = hoped(self.a.known, self.b.link);
        self.to_b = hoped(self.b.known, self.a.link);
    }

    // Whether nothing is under way.
    fn is_over(&self) -> bool {
        self.a.has_heard(&self.b) && self.b.has_heard(&self.a)
    }

    // The generator says which end is next, and how many of the bytes under way to it are handed in. A meeting that goes on and on is cut
    // off: it shows as one that did not open.
    fn converse(&mut self) {
        for _ in 0..10000 {
            if self.is_over() {
                break;
            }
            let x = self.generator.draw();
            let n = (x / 0x2_0000 % 41) as usize;
            if x / 0x1_0000 % 2 == 0 {
                self.a.hear(&self.b, n);
            } else {
                self.b.hear(&self.a, n);
            }
        }
    }

    // The meeting that the byte `c` asks for.
    pub(crate) fn meet(&mut self, c: u8) {
        self.begin(c);
        self.converse();
    }
}
