//! Kept translations.

ghost use Rattle.std.specs.Prelude.{◌≡◌};
ghost use Rattle.mb_model.specs.Keeping.{is_of as of_page, covers};

use mb_port::{Flush, Space};

/// A translation that is kept of a page, until a flush or an older one's place is wanted.
#[derive(Clone, Copy, Debug, PartialEq, Eq)]
pub struct Kept {
    pub space: Space,
    /// The number of the page of 4 KiB, below 2^20.
    pub page: u32,
    /// The number of the frame of 4 KiB, below 2^20.
    pub frame: u32,
    /// Write-protected.
    pub w: bool,
    /// For supervisor space alone.
    pub s: bool,
    /// Global: a flush of all that is not global leaves it.
    pub g: bool,
    /// The page is marked as modified.
    pub m: bool,
}

impl Kept {
    /// Whether it is of a page of a space.
    #[inline(always)]
    pub fn is_of(&self, space: Space, page: u32) -> bool
        ensures { result ≡ of_page space page self.now }
    {
        self.page == page && self.space == space
    }

    /// Whether a flush drops it.
    #[inline(always)]
    pub fn is_covered(&self, what: Flush) -> bool
        ensures { result ≡ covers what self.now }
    {
        match what {
            Flush::All => true,
            Flush::AllLocal => !self.g,
            Flush::Page(space, page) => self.is_of(space, page),
            Flush::PageLocal(space, page) => self.is_of(space, page) && !self.g,
        }
    }
}

/// What stands where nothing is kept yet.
impl Default for Kept {
    fn default() -> Kept {
        Kept {
            space: Space::User,
            page: 0,
            frame: 0,
            w: false,
            s: false,
            g: false,
            m: false,
        }
    }
}
