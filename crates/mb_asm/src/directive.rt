//! Directives.

ghost use Rattle.std.specs.Prelude.{◌≡◌, ◌⊎◌, IfSome, option_map};
ghost use Rattle.mb_syntax.specs.Tables.{found_in};
ghost use Rattle.mb_asm.specs.Sums.{sum_said};
ghost use Rattle.mb_asm.specs.Directives.{directives, only_of, plain_of, unit_of};

use mb_syntax::{Expression, Mode, Operand, SizeLetter, found_in};

/// What is no instruction.
#[derive(Clone, Copy)]
pub(crate) enum Directive {
    /// Goes to an address.
    Org,
    /// Gives its label a value.
    Equ,
    /// Writes values and texts.
    Dc,
    /// Leaves units unwritten.
    Ds,
    /// Goes to an even address.
    Even,
}

const DIRECTIVES: [(&[u8], Directive); 5] = [
    (b"ORG", Directive::Org),
    (b"EQU", Directive::Equ),
    (b"DC", Directive::Dc),
    (b"DS", Directive::Ds),
    (b"EVEN", Directive::Even),
];

pub(crate) fn directive_of(name: &[u8]) -> Option<Directive>
    ensures { result ≡ found_in directives name.now }
{
    found_in(&DIRECTIVES, name)
}

/// How many bytes a unit of DC and DS has: 1, 2 or 4.
pub(crate) fn unit_of(size: Option<SizeLetter>) -> Option<u8>
    ensures value { result ≡ unit_of size }
    ensures known { IfSome result (λ unit. (unit ≡ 1) ⊎ ((unit ≡ 2) ⊎ (unit ≡ 4))) }
{
    match size {
        Some(SizeLetter::Byte) => Some(1),
        None | Some(SizeLetter::Word) => Some(2),
        Some(SizeLetter::Long) => Some(4),
        Some(SizeLetter::Short) => None,
    }
}

/// An operand that is `e` alone.
pub(crate) fn plain_of(operand: &Operand<Expression>) -> Option<&Expression>
    ensures { option_map sum_said result ≡ plain_of operand.now }
{
    match operand {
        Operand::Mode(
            Mode::Absolute {
                address,
                width: None,
            },
        ) => Some(address),
        _ => None,
    }
}

/// The one operand, which is `e` alone.
pub(crate) fn only_of(operands: &[Operand<Expression>]) -> Option<&Expression>
    ensures { option_map sum_said result ≡ only_of operands.now }
{
    match operands {
        [only] => plain_of(only),
        _ => None,
    }
}
