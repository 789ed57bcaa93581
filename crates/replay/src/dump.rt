// All that the link keeps, but name and password.
use crate::reader::Kept;
use link::pppos::PPPoS;
use negotiation::pap::PapState;
use negotiation::states::State;
use options::lcp::AuthType;
use phases::ppp::{Phase, Ppp};
use std::fmt;

#[derive(Clone, Copy)]
pub(crate) struct Dump(pub(crate) PPPoS);

// Names by functions and no `Display`: the types are of other crates.
fn phase_name(phase: Phase) -> &'static str {
    match phase {
        Phase::Dead => "dead",
        Phase::Establish => "establish",
        Phase::Auth => "auth",
        Phase::Network => "network",
        Phase::Open => "open",
    }
}

fn state_name(state: State) -> &'static str {
    match state {
        State::Closed => "closed",
        State::ReqSent => "reqsent",
        State::AckReceived => "ackreceived",
        State::AckSent => "acksent",
        State::Opened => "opened",
    }
}

fn pap_name(state: PapState) -> &'static str {
    match state {
        PapState::Closed => "closed",
        PapState::ReqSent => "reqsent",
        PapState::Opened => "opened",
    }
}

fn auth_name(auth: AuthType) -> &'static str {
    match auth {
        AuthType::None => "none",
        AuthType::Pap => "pap",
    }
}

fn lcp<W: fmt::Write>(f: &mut fmt::Formatter<W>, ppp: &Ppp) -> fmt::Result {
    let lcp = &ppp.lcp;
    let kept = &lcp.proto;
    write!(f, " lcp={} lcpid={}", state_name(lcp.state), lcp.id)?;
    write!(
        f,
        " auth={} remote={:08x}",
        auth_name(kept.auth),
        kept.asyncmap_remote
    )?;
    write!(
        f,
        " map={:08x} maprej={}",
        kept.asyncmap,
        u8::from(kept.asyncmap_rej)
    )
}

fn ipv4cp<W: fmt::Write>(f: &mut fmt::Formatter<W>, ppp: &Ppp) -> fmt::Result {
    let ipv4cp = &ppp.ipv4cp;
    let kept = &ipv4cp.proto;
    write!(f, " ipcp={} ipcpid={}", state_name(ipv4cp.state), ipv4cp.id)?;
    write!(f, " peer={:08x}", kept.peer_address)?;
    for (name, option) in [
        ("addr", kept.address),
        ("dns1", kept.dns_server_1),
        ("dns2", kept.dns_server_2),
    ] {
        write!(
            f,
            " {name}={:08x} {name}rej={}",
            option.address,
            u8::from(option.is_rejected)
        )?;
    }
    Ok(())
}

impl fmt::Display for Dump {
    fn fmt<W: fmt::Write>(&self, f: &mut fmt::Formatter<W>) -> fmt::Result {
        let ppp = &self.0.ppp;
        let pap = &ppp.auth.pap;
        write!(f, "{}", Kept(self.0.frame_reader))?;
        write!(
            f,
            " phase={} opening={}",
            phase_name(ppp.phase),
            u8::from(ppp.opening)
        )?;
        lcp(f, ppp)?;
        ipv4cp(f, ppp)?;
        write!(f, " pap={} papid={}", pap_name(pap.state), pap.id)
    }
}
