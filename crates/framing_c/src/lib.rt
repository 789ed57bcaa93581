// What the C firmware calls; include/ppproto.h declares it.
#![tactic(auto)]

ghost use Rattle.std.specs.Prelude.{◌≡◌};
ghost use Rattle.framing.specs.Rfc1662.{fcs};
ghost use Rattle.framing.specs.Writer.{Lays};

use framing::crc::crc16;
use framing::encode::encode;

#[unsafe(no_mangle)]
pub extern "C" fn ppp_crc16(seed: u16, src: &[u8]) -> u16
    ensures { result ≡ fcs seed src.now }
{
    crc16(seed, src)
}

// The length of the frame, or 0 where it does not fit (refusal 1).
#[unsafe(no_mangle)]
pub extern "C" fn ppp_encode(buf: &mut [u8], asyncmap: u32, src: &[u8]) -> usize
    ensures { Lays asyncmap src.now buf.old result buf.new }
{
    encode(buf, asyncmap, src).unwrap_or(0)
}
