//! The words of the command line.
//!
//! Below the top call: it turns the words into a command with its values, or refuses them. Each command
//! has its form, by which `mb_forms` reads its words; what they ask for is the definition `asked_by` of
//! `specs/Words`.
#![tactic(auto)]

mod asm;
mod asm_words;
mod bare;
mod bare_words;
mod command;
mod debug_guest;
mod debug_words;
mod dis;
mod dis_words;
mod gen_words;
mod generate;
mod laws;
mod reading;
mod session;
mod session_words;
mod snapshot;
mod snapshot_words;
mod values;

pub use asm::Asm;
pub use bare::{Bare, BareDisk};
pub use command::Command;
pub use debug_guest::DebugGuest;
pub use dis::Dis;
pub use generate::Generate;
pub use laws::plain_words_ask;
pub use mb_forms::WordsFault;
pub use reading::read_words;
pub use session::SessionFile;
pub use snapshot::{ResumeSnapshot, SaveSession};
