//! A session with an order of turns.

use mb_script::Turn;
use vm_slices::Session;

/// A session, and the turns that come before its rounds.
#[derive(Drop)]
pub(crate) struct OrderedSession {
    pub(crate) session: Session,
    pub(crate) order: Vec<Turn>,
}
