//! The tables of a shadow.

ghost use Rattle.std.specs.Prelude.{◌≡◌};
ghost use Rattle.vm_shadow.specs.Slots.{same_table};

use mb_port::Space;

/// A table below a root.
#[derive(Clone, Copy, Debug, PartialEq, Eq, Drop)]
pub enum Table {
    /// A pointer table: the space, and the root's index, which is bits 19 to 13 of a page's number.
    Pointers(Space, u32),
    /// A page table: the space, and bits 19 to 6 of a page's number.
    Pages(Space, u32),
}

impl Table {
    /// Whether it is this one.
    pub fn is(self, other: Table) -> bool
        ensures { result ≡ same_table self other }
    {
        match self {
            Table::Pointers(space, index) => match other {
                Table::Pointers(of, number) => space == of && index == number,
                Table::Pages(_, _) => false,
            },
            Table::Pages(space, index) => match other {
                Table::Pointers(_, _) => false,
                Table::Pages(of, number) => space == of && index == number,
            },
        }
    }
}
