// Why the reader drops a frame, and how many it dropped for each cause (document 02, 5/12).
ghost use Rattle.std.specs.Prelude.{◌≡◌, ◌+◌, ◌<◌, ◌^◌};
ghost use Rattle.framing.specs.Drops.{no_drops, one_drop, together, all_of};

// What is wrong with a frame that ends, the first that applies; or with one that goes on.
#[derive(Clone, Copy, PartialEq, Eq)]
pub enum Fault {
    // An escape right before the flag, in standard reading.
    Aborted,
    // Under three bytes are kept.
    Short,
    // The first is not 03.
    Control,
    // The residue is wrong.
    Check,
    // A byte finds no room; the frame has not ended.
    Overrun,
}

// How many, by fault.
#[derive(Clone, Copy, PartialEq, Eq)]
pub struct Drops {
    pub aborted: usize,
    pub short: usize,
    pub control: usize,
    pub check: usize,
    pub overrun: usize,
}

impl Drops {
    pub fn none() -> Self
        ensures { result ≡ no_drops }
    {
        Drops {
            aborted: 0,
            short: 0,
            control: 0,
            check: 0,
            overrun: 0,
        }
    }

    // One more, where there is a fault.
    pub(crate) fn noted(self, f: Option<Fault>) -> Self
        requires { all_of self + 1 < 2 ^ 64 }
        ensures { result ≡ together self (one_drop f) }
    {
        let mut d = self;
        match f {
            None => {}
            Some(Fault::Aborted) => d.aborted += 1,
            Some(Fault::Short) => d.short += 1,
            Some(Fault::Control) => d.control += 1,
            Some(Fault::Check) => d.check += 1,
            Some(Fault::Overrun) => d.overrun += 1,
        }
        d
    }
}
