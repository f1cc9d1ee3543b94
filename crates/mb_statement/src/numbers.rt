//! Numbers as they are listed.

ghost use Rattle.std.specs.Prelude.{◌≡◌, ◌+◌, ◌<◌, ◌≤◌, ◌++◌};
ghost use Rattle.arrayvec.specs.ArrayVec.{array_vec_len};
ghost use Rattle.mb_report.specs.Digits.{hex_digit};
ghost use Rattle.mb_statement.specs.Numbers.{last_digits, number, signed};

use arrayvec::ArrayVec;

/// A line before it is put.
pub type LineText = ArrayVec<u8, 512>;

fn hex_digit(digit: u8) -> u8
    requires { digit < 16 }
    ensures { result ≡ hex_digit digit }
{
    if digit < 10 {
        b'0' + digit
    } else {
        b'A' + (digit - 10)
    }
}

/// The digits without leading zeros; at most so many.
#[tactic(auto, unfolding(crate::specs::Numbers::last_digits))]
fn push_last_digits(line: &mut LineText, most: u8, value: u64)
    requires { array_vec_len line.old + most ≤ 512 }
    ensures pushed { line.new.items ≡ line.old.items ++ last_digits most value }
    ensures len { array_vec_len line.new ≤ array_vec_len line.old + most }
{
    if most == 0 {
        return;
    }
    if value < 16 {
        line.push(hex_digit(value as u8));
    } else {
        push_last_digits(line, most - 1, value / 16);
        line.push(hex_digit((value % 16) as u8));
    }
}

/// `$` and the digits.
pub fn push_number(line: &mut LineText, value: u64)
    requires { array_vec_len line.old + 17 ≤ 512 }
    ensures pushed { line.new.items ≡ line.old.items ++ number value }
    ensures len { array_vec_len line.new ≤ array_vec_len line.old + 17 }
{
    line.push(b'$');
    push_last_digits(line, 16, value);
}

/// The same, with `-` before the `$` of a negative number.
pub(crate) fn push_signed(line: &mut LineText, value: i64)
    requires { array_vec_len line.old + 18 ≤ 512 }
    ensures pushed { line.new.items ≡ line.old.items ++ signed value }
    ensures len { array_vec_len line.new ≤ array_vec_len line.old + 18 }
{
    if value < 0 {
        line.push(b'-');
    }
    push_number(line, value.unsigned_abs());
}
