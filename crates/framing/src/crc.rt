// The check value, RFC 1662's FCS-16: by the paper's table, and beside it by the crate's formula.
ghost use Rattle.std.specs.Prelude.{◌≡◌, ◌%◌};
ghost use Rattle.framing.specs.Rfc1662.{fcs, fcs_byte};
ghost use Rattle.framing.specs.Table.{Table};

use crate::table::fcstab;

// Which entry: the low byte of the register with the byte in it.
fn index(x: u32) -> usize
    ensures { result ≡ x % 256 }
{
    x as usize % 256
}

// One byte, by a table that is lent: `(fcs >> 8) ^ fcstab[(fcs ^ c) & 0xff]` in the paper. Held in 32 bits the register is quicker to take on.
fn step_by_table(table: &[u16], seed: u32, b: u8) -> u32
    requires { Table table.now }
    ensures { result ≡ fcs_byte seed b }
{
    (seed >> 8) ^ u32::from(table[index(seed ^ u32::from(b))])
}

pub fn crc16(seed: u16, src: &[u8]) -> u16
    ensures { result ≡ fcs seed src.now }
{
    let table = fcstab();
    let mut s = u32::from(seed);
    for &b in src {
        s = step_by_table(&table, s, b);
    }
    s as u16
}

// One byte, by the crate's formula.
fn step_by_formula(seed: u16, b: u8) -> u16
    ensures { result ≡ fcs_byte seed b }
{
    let e = ((seed % 256) as u8) ^ b;
    let f = u16::from(e ^ (e << 4));
    (seed >> 8) ^ (f << 8) ^ (f << 3) ^ (f >> 4)
}

// The same multiplied out: what mixing the index with itself adds is one product, so that a byte waits less for the one before it.
pub(crate) fn step(seed: u16, b: u8) -> u16
    ensures { result ≡ fcs_byte seed b }
{
    let t = seed ^ u16::from(b);
    let e = t % 256;
    (t >> 8) ^ (t << 8) ^ (e >> 4) ^ (e << 3) ^ (t % 16 * 0x1081)
}

// A loop of its own beside the table's: document 02, 6/12 wants both, and one over a closure would be no shorter.
pub fn crc16_by_formula(seed: u16, src: &[u8]) -> u16
    ensures { result ≡ fcs seed src.now }
{
    let mut s = seed;
    for &b in src {
        s = step_by_formula(s, b);
    }
    s
}
