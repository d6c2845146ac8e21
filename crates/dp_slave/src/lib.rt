//! One DP-V0 slave (IEC 61158-6-3, slave state machine): what each service, its device, its application and time change
//! of it; it reads no telegrams and decides no request.
#![tactic(auto)]

mod changes;
mod controls;
mod data_octets;
mod description;
mod fault;
mod fields;
mod image;
pub mod laws;
mod linked;
mod reachable;
mod services;
mod slave;
mod soundness;
mod view;

pub use description::{Configuration, Device, MOST_CONFIGURATIONS, SlaveSpec};
pub use fault::InputFault;
pub use image::{DataPair, HoldState, Settings, SlaveImage};
pub use slave::Slave;
pub use view::SlaveView;
