//! The commands.

use crate::asm::Asm;
use crate::bare::Bare;
use crate::debug_guest::DebugGuest;
use crate::dis::Dis;
use crate::generate::Generate;
use crate::session::SessionFile;
use crate::snapshot::{ResumeSnapshot, SaveSession};

/// A command with its values.
#[derive(Clone, Copy, Drop)]
pub enum Command<'a> {
    Bare(Bare<'a>),
    Asm(Asm<'a>),
    Dis(Dis<'a>),
    Host(SessionFile<'a>),
    Compare(SessionFile<'a>),
    Gen(Generate),
    Debug(DebugGuest<'a>),
    Save(SaveSession<'a>),
    Resume(ResumeSnapshot<'a>),
}
