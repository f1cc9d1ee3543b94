//! What names are read as.

ghost use Rattle.std.specs.Prelude.{◌≡◌, Option, Some, None};
ghost use Rattle.mb_syntax.specs.Names.{cache_names, dropped, general};
ghost use Rattle.mb_syntax.specs.Names.{numbered_register, register_number, register_of};
ghost use Rattle.mb_syntax.specs.Names.{size_letters};
ghost use Rattle.mb_syntax.specs.Tables.{found_in};
ghost use Rattle.mb_syntax.specs.Statements.{takes_caches};

use crate::register::Register;
use crate::statement::SizeLetter;
use crate::table::found_in;
use mb_instr::{Caches, ControlRegister};

#[rattlefmt::skip]
const NAMED_REGISTERS: [(&[u8], Register); 5] = [
    (b"SP", Register::Address(7)),
    (b"PC", Register::Pc),
    (b"ZPC", Register::NoPc),
    (b"SR", Register::Sr),
    (b"CCR", Register::Ccr),
];

const SIZE_LETTERS: [(&[u8], SizeLetter); 4] = [
    (b"B", SizeLetter::Byte),
    (b"S", SizeLetter::Short),
    (b"W", SizeLetter::Word),
    (b"L", SizeLetter::Long),
];

const CACHE_NAMES: [(&[u8], Caches); 4] = [
    (b"NC", Caches::Neither),
    (b"DC", Caches::Data),
    (b"IC", Caches::Instruction),
    (b"BC", Caches::Both),
];

const CACHE_OPERATIONS: [(&[u8], ()); 6] = [
    (b"CINVL", ()),
    (b"CINVP", ()),
    (b"CINVA", ()),
    (b"CPUSHL", ()),
    (b"CPUSHP", ()),
    (b"CPUSHA", ()),
];

/// The register that a name says.
pub(crate) fn register_of(name: &[u8]) -> Option<Register>
    ensures { result ≡ register_of name.now }
{
    if let Some(register) = numbered_register(name) {
        return Some(register);
    }
    if let Some(register) = found_in(&NAMED_REGISTERS, name) {
        return Some(register);
    }
    let control = ControlRegister::named(name)?;
    Some(Register::Control(control))
}

/// `Dn`, `An`, `ZDn` or `ZAn`.
fn numbered_register(name: &[u8]) -> Option<Register>
    ensures { result ≡ numbered_register name.now }
{
    match name {
        [letter, digit] => general(*letter, *digit),
        [b'Z' | b'z', letter, digit] => dropped(*letter, *digit),
        _ => None,
    }
}

fn general(letter: u8, digit: u8) -> Option<Register>
    ensures { result ≡ general letter digit }
{
    let number = register_number(digit)?;
    match letter {
        b'D' | b'd' => Some(Register::Data(number)),
        b'A' | b'a' => Some(Register::Address(number)),
        _ => None,
    }
}

fn dropped(letter: u8, digit: u8) -> Option<Register>
    ensures { result ≡ dropped letter digit }
{
    let number = register_number(digit)?;
    match letter {
        b'D' | b'd' => Some(Register::NoData(number)),
        b'A' | b'a' => Some(Register::NoAddress(number)),
        _ => None,
    }
}

fn register_number(digit: u8) -> Option<u8>
    ensures { result ≡ register_number digit }
{
    match digit {
        b'0'..=b'7' => Some(digit - b'0'),
        _ => None,
    }
}

pub(crate) fn size_letter(name: &[u8]) -> Option<SizeLetter>
    ensures { result ≡ found_in size_letters name.now }
{
    found_in(&SIZE_LETTERS, name)
}

pub(crate) fn caches_of(name: &[u8]) -> Option<Caches>
    ensures { result ≡ found_in cache_names name.now }
{
    found_in(&CACHE_NAMES, name)
}

/// Whether it is CINV or CPUSH.
pub(crate) fn takes_caches(name: &[u8]) -> bool
    ensures { result ≡ takes_caches name.now }
{
    found_in(&CACHE_OPERATIONS, name).is_some()
}
