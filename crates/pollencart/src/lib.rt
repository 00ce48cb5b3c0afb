// The C library: what other programs call, on numbers and slices. include/pollencart.h declares it; each module holds one part.
#![tactic(auto)]

pub mod applies;
pub mod counts;
pub mod framing;
pub mod reads;
pub mod replays;
pub mod tables;
