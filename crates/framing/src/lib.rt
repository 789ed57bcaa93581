// HDLC-like framing (RFC 1662): the check value, the frame writer and the frame reader. Nothing here knows of negotiation.
#![tactic(auto)]

pub mod crc;
pub mod drops;
pub mod encode;
pub mod frame_reader;
pub mod frame_writer;
pub mod place;
pub mod refusal;
mod table;
