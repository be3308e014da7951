//! Gives a call of the program its devices over the system, with 16 hands; at which places they stand is tested.
//!
//! 1. `hand_gates::gate` gives what runs the goals: the built-in ones, or children.
//! 2. `hands::hands` gives each worker its remote repository, its own staging folder and its gate.
//! 3. `devices::named_devices` joins them with the project in the current folder and the local repository, at the
//!    places that the environment names.
//! 4. `devices::standard_output` gives the output.
#![tactic(auto)]

mod devices;
mod hand_gates;
mod hands;

pub use devices::{RealDevices, RealOutside, named_devices, standard_output};
pub use hand_gates::RealGate;
pub use hands::RealHand;
