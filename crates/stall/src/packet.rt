// Packets made from a counter: where one arrives it can be made again.
use serial::generator::Generator;

pub(crate) const LONGEST: usize = 1500;

// The upper bits alone: 0 to 32,767.
pub(crate) fn high(x: u32) -> usize {
    (x / 0x1_0000) as usize
}

fn seeded(n: usize) -> Generator {
    Generator {
        state: (n % 0x8000_0000) as u32,
    }
}

// How long packet `n` is: one in four has up to 1,500 bytes, the others have up to 100.
fn size(n: usize) -> usize {
    let mut generator = seeded(n);
    generator.draw();
    let x = high(generator.draw());
    let most = if x % 4 == 0 { LONGEST } else { 100 };
    x / 4 % most + 1
}

// Packet `n`, in the lent room.
pub(crate) fn packet(n: usize, room: &mut [u8]) -> &[u8] {
    let len = size(n).min(room.len());
    let mut generator = seeded(n);
    for b in room[..len].iter_mut() {
        *b = (high(generator.draw()) % 256) as u8;
    }
    &room[..len]
}
