//! The command `debug`.

ghost use Rattle.mb_words.specs.Values.{IsGuestCount};

/// `debug`: a guest of a session under the debugger.
#[derive(Clone, Copy, Drop)]
pub struct DebugGuest<'a> {
    /// The name of the session's file. It is not empty.
    pub session: &'a str,
    /// The name of the file with the debugger's commands. It is not empty.
    pub commands: &'a str,
    /// The guest's number in its session: 1 to 16.
    pub guest: u8,
    pub ghost in_range: { IsGuestCount guest },
}
