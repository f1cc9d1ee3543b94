//! How a turn ends.

ghost use Rattle.std.specs.Prelude.{◌≡◌};
ghost use Rattle.vm_guest.specs.Turns.{end_by};

use mb_model::RunState;

/// How a guest's turn ended.
#[derive(Clone, Copy, Debug, PartialEq, Eq)]
pub enum TurnEnd {
    /// All of its steps were taken, and the guest can take more.
    Counted,
    /// The guest is halted.
    Halted,
    /// The guest is switched off.
    Off,
}

impl TurnEnd {
    /// How a turn ends that leaves the guest in this state.
    pub(crate) fn by(state: RunState) -> TurnEnd
        ensures { result ≡ end_by state }
    {
        match state {
            RunState::Running | RunState::Stopped => TurnEnd::Counted,
            RunState::Halted => TurnEnd::Halted,
            RunState::Off => TurnEnd::Off,
        }
    }
}
