// What an end offers, and how it reads.
use framing::frame_reader::Reading;
use link::pppos::PPPoS;
use options::ipv4cp::IpOption;

pub(crate) fn is_set(c: u8, bit: u8) -> bool {
    c & bit != 0
}

fn option(address: u32, is_rejected: bool) -> IpOption {
    IpOption {
        address,
        is_rejected,
    }
}

// Every other bit of `c` is for this end. Bit 0: no map is offered; bit 2: no address; bit 4: no name servers; bit 6: how it reads.
pub(crate) fn offer(link: &mut PPPoS, c: u8, x: u32) {
    link.frame_reader.reading = if is_set(c, 64) {
        Reading::Standard
    } else {
        Reading::Crate
    };
    let lcp = &mut link.ppp.lcp.proto;
    lcp.asyncmap = x;
    lcp.asyncmap_rej = is_set(c, 1);
    let ipv4cp = &mut link.ppp.ipv4cp.proto;
    ipv4cp.address = option(0xFFFF_FFFF - x, is_set(c, 4));
    ipv4cp.dns_server_1 = option(x, is_set(c, 16));
    ipv4cp.dns_server_2 = option(x, is_set(c, 16));
}

// What a link knows of its peer.
#[derive(Clone, Copy, PartialEq, Eq)]
pub(crate) struct Known {
    map: u32,
    address: u32,
}

pub(crate) fn knows(link: PPPoS) -> Known {
    Known {
        map: link.ppp.lcp.proto.asyncmap_remote,
        address: link.ppp.ipv4cp.proto.peer_address,
    }
}

// What it is to know at the end: as the peer offers, or as before where the peer offers nothing.
pub(crate) fn hoped(before: Known, peer: PPPoS) -> Known {
    let lcp = peer.ppp.lcp.proto;
    let address = peer.ppp.ipv4cp.proto.address;
    Known {
        map: if lcp.asyncmap_rej {
            before.map
        } else {
            lcp.asyncmap
        },
        address: if address.is_rejected {
            before.address
        } else {
            address.address
        },
    }
}

// The ids that a link used last.
pub(crate) fn ids(link: PPPoS) -> [u8; 2] {
    [link.ppp.lcp.id, link.ppp.ipv4cp.id]
}
