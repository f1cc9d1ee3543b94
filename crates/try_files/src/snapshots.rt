//! A guest's lines of a snapshot.

mod reading;
mod written;
