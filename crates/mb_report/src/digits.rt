//! Hexadecimal digits.

ghost use Rattle.std.specs.Prelude.{◌≡◌, ◌+◌, ◌*◌, ◌<◌, ◌≤◌, ◌++◌, length};
ghost use Rattle.arrayvec.specs.ArrayVec.{array_vec_len};
ghost use Rattle.mb_report.specs.Digits.{digits, hex_digit, hex2, hex8};

use arrayvec::ArrayVec;

pub(crate) fn hex_digit(d: u8) -> u8
    requires { d < 16 }
    ensures { result ≡ hex_digit d }
{
    if d < 10 { b'0' + d } else { b'A' + (d - 10) }
}

/// The two digits of a byte, in upper case, the high one first.
pub fn hex2(byte: u8) -> [u8; 2]
    ensures { result ≡ hex2 byte }
{
    [hex_digit(byte / 16), hex_digit(byte % 16)]
}

/// The eight digits of a long, in upper case.
#[tactic(auto, unfolding(crate::specs::Digits::hex8))]
pub fn hex8(value: u32) -> [u8; 8]
    ensures { result ≡ hex8 value }
{
    let [first, second, third, fourth] = value.to_be_bytes();
    let [a, b] = hex2(first);
    let [c, d] = hex2(second);
    let [e, f] = hex2(third);
    let [g, h] = hex2(fourth);
    [a, b, c, d, e, f, g, h]
}

/// The digits of bytes, two each, behind what a line has.
pub fn push_digits<const N: usize>(line: &mut ArrayVec<u8, N>, bytes: &[u8])
    requires { array_vec_len line.old + 2 * length bytes.now ≤ N }
    ensures pushed { line.new.items ≡ line.old.items ++ digits bytes.now }
    ensures len { array_vec_len line.new ≡ array_vec_len line.old + 2 * length bytes.now }
{
    for byte in bytes {
        let [high, low] = hex2(*byte);
        line.push(high);
        line.push(low);
    }
}
