// The C interface. Each function takes whatever a caller hands over, and its contract says all that the caller finds afterwards.
#![tactic(auto)]

pub mod constants;
pub mod device_emulation;
pub mod device_evaluation;
pub mod emulation;
pub mod evaluation;
mod numbers;
mod outcome;
pub mod reading;
pub mod shipping;
pub mod version;
