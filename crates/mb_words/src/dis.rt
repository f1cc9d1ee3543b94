//! The command `dis`.

ghost use Rattle.std.specs.Prelude.{◌≡◌, ◌%◌};
ghost use Rattle.mb_script.specs.Plan.{IsRam};

/// `dis`: an excerpt of a machine's opening memory, by its image and its RAM.
#[derive(Clone, Copy, Drop)]
pub struct Dis<'a> {
    /// The name of the image's file. It is not empty.
    pub image: &'a str,
    /// In KiB: 64 to 16,384, a multiple of 64.
    pub ram: u32,
    /// The address of the first line, which is even.
    pub at: u32,
    /// How many lines: 1 to 1,000,000.
    pub count: u32,
    pub ghost in_range: { IsRam ram × (at % 2 ≡ 0) },
}
