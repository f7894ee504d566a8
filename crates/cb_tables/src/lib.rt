//! The tables of H.264 that syntax, transforms and the deblocking filter stand on.
#![tactic(auto)]

mod coded_block_pattern;
mod codes;
mod coeff_token;
mod deblocking;
mod laws;
mod macros;
mod run_before;
mod scaling;
mod slots;
mod total_zeros;

pub use coded_block_pattern::{pattern, pattern_code};
pub use codes::{Code, Found};
pub use coeff_token::{FoundToken, find_token, token};
pub use deblocking::{alpha, beta, tc0};
pub use laws::{codes_are_prefix_free, codes_are_spelled, patterns_are_inverse};
pub use run_before::{find_run, run};
pub use scaling::{chroma_qp_of, level_scale};
pub use total_zeros::{dc_zeros, find_dc_zeros, find_zeros, zeros};
