//! The files of a machine by their names, and what they hold.

ghost use Rattle.mb_script.specs.Plan.{IsBlocks};

use mb_script::Script;
use mb_srec::Image;
use vm_guest::SessionDisk;

/// A disk: how many blocks it has, and the name of the file with its contents, where it has any.
#[derive(Clone, Copy, Drop)]
pub(crate) struct NamedDisk<'a> {
    pub(crate) blocks: u32,
    pub(crate) contents: Option<&'a str>,
    pub(crate) ghost in_range: { IsBlocks blocks },
}

/// The names of a machine's files, with its RAM in KiB.
#[derive(Clone, Copy, Drop)]
pub(crate) struct NamedFiles<'a> {
    pub(crate) image: &'a str,
    pub(crate) ram: u32,
    pub(crate) script: Option<&'a str>,
    pub(crate) disk: Option<NamedDisk<'a>>,
}

/// What the files of a machine hold.
#[derive(Debug, Drop)]
pub(crate) struct Parts {
    pub(crate) image: Image,
    pub(crate) script: Script,
    pub(crate) disk: Option<SessionDisk>,
}
