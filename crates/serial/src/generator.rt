// A linear congruential generator: the upper bits of its numbers are the better ones.
ghost use Rattle.std.specs.Prelude.{◌≡◌};
ghost use Rattle.serial.specs.Generator.{after};

#[derive(Clone, Copy)]
pub struct Generator {
    pub state: u32,
}

impl Generator {
    pub fn draw(&mut self) -> u32
        ensures value { result ≡ after self.old.state }
        ensures state { self.new.state ≡ result }
    {
        self.state = ((u64::from(self.state) * 1103515245 + 12345) % 0x8000_0000) as u32;
        self.state
    }
}
