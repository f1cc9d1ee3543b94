//! Pages of which nothing is kept.

ghost use Rattle.std.specs.Prelude.{◌≡◌, ◌-◌, ◌<◌, ◌^◌};
ghost use Rattle.mb_spelling.specs.Hex.{passing};
ghost use Rattle.vm_snapshot.specs.Pages.{is_free as free};

use mb_model::Kept;
use mb_port::Space;
use mb_spelling::Admits;

/// The pages of a space of which nothing is kept.
#[derive(Clone, Copy)]
pub(crate) struct FreePages<'a> {
    pub(crate) kept: &'a [Kept],
    pub(crate) space: Space,
}

/// Whether nothing is kept of a page.
fn is_free(kept: &[Kept], space: Space, page: u128) -> bool
    ensures { result ≡ free kept.now space page }
{
    !kept
        .iter()
        .any(|k| k.space == space && u128::from(k.page) == page)
}

/// Whether one of the pages with the digits of `value`, and so many more, is free.
fn leaves_one(kept: &[Kept], space: Space, more: u32, value: u128) -> bool
    requires more { more < 32 }
    requires fits { value < 16 ^ (32 - more) }
    ensures { result ≡ passing (free kept.now space) more value }
{
    if more == 0 {
        return is_free(kept, space, value);
    }
    let mut digits = 16;
    while digits > 0 {
        digits -= 1;
        if leaves_one(kept, space, more - 1, 16 * value + digits) {
            return true;
        }
    }
    false
}

impl<'a> Admits for FreePages<'a> {
    ghost numbers = { λ pages. passing (free pages.kept.now pages.space) };

    fn may(&self, more: u32, value: u128) -> bool {
        leaves_one(self.kept, self.space, more, value)
    }
}
