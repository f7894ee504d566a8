//! How a call of the driver can end: the statuses of vdpau.h, and the refusals that lead to them.
#![tactic(auto)]

mod refusal;
mod status;

pub use refusal::Refusal;
pub use status::VdpStatus;
