//! The commands `save` and `resume`.

/// `save`: the guests of a session after some steps.
#[derive(Clone, Copy, Drop)]
pub struct SaveSession<'a> {
    /// The name of the session's file. It is not empty.
    pub session: &'a str,
    /// How many steps each guest takes at most before it is saved.
    pub steps: u32,
}

/// `resume`: the guests of a snapshot go on.
#[derive(Clone, Copy, Drop)]
pub struct ResumeSnapshot<'a> {
    /// The name of the snapshot's file. It is not empty.
    pub snapshot: &'a str,
    /// How many steps more each guest takes at most.
    pub steps: u32,
}
