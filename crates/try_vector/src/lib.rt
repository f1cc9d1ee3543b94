//! A bus over a vector of longs, without translation: a memory for the tests of generic code.
//!
//! Nothing of the program stands on it. Whoever tests code that is generic over `Port` takes it as the
//! port.
#![tactic(auto)]

mod port;

pub use port::VectorPort;
