//! Break points.

ghost use Rattle.std.specs.Prelude.{◌≡◌, []};
ghost use Rattle.vm_debug.specs.Debugs.{has_room, stands, with_break, without_break};

use crate::debugger::Debugger;
use arrayvec::ArrayVec;

impl Debugger {
    /// A debugger without break points.
    pub fn new() -> Debugger
        ensures { result ≡ [] }
    {
        Debugger {
            breaks: ArrayVec::new(),
        }
    }

    /// Whether a break point stands at an address.
    pub(crate) fn stands(&self, at: u32) -> bool
        ensures { result ≡ stands at self.now }
    {
        self.breaks.iter().any(|&other| other == at)
    }

    /// Adds a break point where none stands; false where it finds no room.
    pub(crate) fn add(&mut self, at: u32) -> bool
        ensures room { result ≡ has_room at self.old }
        ensures added { self.new ≡ with_break at self.old }
    {
        self.stands(at) || self.breaks.try_push(at).is_ok()
    }

    /// Removes a break point; false where none stands.
    pub(crate) fn remove(&mut self, at: u32) -> bool
        ensures stood { result ≡ stands at self.old }
        ensures removed { self.new ≡ without_break at self.old }
    {
        let stood = self.stands(at);
        self.breaks.retain(|other| *other != at);
        stood
    }
}
