//! Tables of syntax elements as those of H.264, 7.3, and the reading and writing of each element.
#![tactic(auto)]

mod elements;

pub use elements::{
    Stop, put_flag, read_byte, read_flag, read_flag_only, read_se, read_se_between, read_u,
    read_u_only, read_ue, read_ue_only, read_ue_up_to,
};
