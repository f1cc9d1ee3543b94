//! The command `bare`.

ghost use Rattle.mb_script.specs.Plan.{IsBlocks, IsRam};

/// A disk of a machine: how many blocks it has, and its contents.
#[derive(Clone, Copy, Drop)]
pub struct BareDisk<'a> {
    /// 1 to 32,768.
    pub blocks: u32,
    /// The name of the file with its contents, where there is one. It is not empty.
    pub contents: Option<&'a str>,
    pub ghost in_range: { IsBlocks blocks },
}

/// `bare`: a machine by its image, its RAM, its steps and its terminal's input.
#[derive(Clone, Copy, Drop)]
pub struct Bare<'a> {
    /// The name of the image's file. It is not empty.
    pub image: &'a str,
    /// In KiB: 64 to 16,384, a multiple of 64.
    pub ram: u32,
    pub steps: u32,
    /// The name of the script's file, where there is one. It is not empty.
    pub script: Option<&'a str>,
    pub disk: Option<BareDisk<'a>>,
    pub ghost in_range: { IsRam ram },
}
