// IPv4CP's options (RFC 1332, and RFC 1877 for the name servers).
ghost use Rattle.std.specs.Prelude.{◌≡◌};
ghost use Rattle.options.specs.Wire.{pkt_of, pushed_all};
ghost use Rattle.options.specs.Ipv4cp.{fresh_ip, shown, shown_ip, own_ip, ip_nacked, fresh_ipv4cp, judge_ipv4cp, own_ipv4cp, ipv4cp_nacked};

use crate::proto::{Judged, Verdict};
use crate::wire::{Packet, be};

// No Option: a dropped address stays, and replay shows it.
#[derive(Clone, Copy, PartialEq, Eq)]
pub struct IpOption {
    pub address: u32,
    pub is_rejected: bool,
}

impl IpOption {
    fn new() -> Self
        ensures { result ≡ fresh_ip }
    {
        IpOption {
            address: 0,
            is_rejected: false,
        }
    }

    pub fn get(self) -> Option<u32>
        ensures { result ≡ shown_ip self }
    {
        if self.is_rejected {
            return None;
        }
        show(self.address)
    }

    fn nacked(self, d: &[u8], is_rej: bool) -> Self
        ensures { result ≡ ip_nacked self d.now is_rej }
    {
        if !is_rej && d.len() == 4 {
            return IpOption {
                address: be(d),
                ..self
            };
        }
        IpOption {
            is_rejected: true,
            ..self
        }
    }

    // The option behind what the packet holds, unless it was dropped.
    fn push(self, code: u8, b: Packet) -> Packet
        ensures { result ≡ pushed_all b (own_ip self code) }
    {
        b.push_field(self.is_rejected, code, self.address)
    }
}

// An address as it is shown: 0.0.0.0 is none.
pub fn show(address: u32) -> Option<u32>
    ensures { result ≡ shown address }
{
    (address != 0).then_some(address)
}

#[derive(Clone, Copy, PartialEq, Eq)]
pub struct Ipv4cp {
    pub peer_address: u32,
    pub address: IpOption,
    pub dns_server_1: IpOption,
    pub dns_server_2: IpOption,
}

// Numbers, as in wire.rs: an option may have any.
const IP_ADDRESS: u8 = 3;

const DNS1: u8 = 129;

const DNS2: u8 = 131;

impl Ipv4cp {
    pub fn new() -> Self
        ensures { result ≡ fresh_ipv4cp }
    {
        Ipv4cp {
            peer_address: 0,
            address: IpOption::new(),
            dns_server_1: IpOption::new(),
            dns_server_2: IpOption::new(),
        }
    }

    pub(crate) fn peer_option_received(self, code: u8, d: &[u8]) -> Judged<Self>
        ensures { result ≡ judge_ipv4cp self code d.now }
    {
        if code == IP_ADDRESS && d.len() == 4 {
            return Judged {
                verdict: Verdict::Ack,
                proto: Ipv4cp {
                    peer_address: be(d),
                    ..self
                },
            };
        }
        Judged {
            verdict: Verdict::Rej,
            proto: self,
        }
    }

    // The own options, as they stand in a request.
    pub(crate) fn own_options(self) -> Packet
        ensures { result ≡ pkt_of (own_ipv4cp self) }
    {
        let b = self.address.push(IP_ADDRESS, Packet::blank());
        self.dns_server_2
            .push(DNS2, self.dns_server_1.push(DNS1, b))
    }

    pub(crate) fn own_option_nacked(mut self, code: u8, d: &[u8], is_rej: bool) -> Self
        ensures { result ≡ ipv4cp_nacked self code d.now is_rej }
    {
        match code {
            IP_ADDRESS => self.address = self.address.nacked(d, is_rej),
            DNS1 => self.dns_server_1 = self.dns_server_1.nacked(d, is_rej),
            DNS2 => self.dns_server_2 = self.dns_server_2.nacked(d, is_rej),
            _ => {}
        }
        self
    }
}
