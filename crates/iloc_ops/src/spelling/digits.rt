//! How numbers below 10,000 are written, without a branch on how many digits they have.
ghost use Rattle.std.specs.Prelude.{◌≡◌, ◌≤◌, ◌<◌, ◌+◌, ◌++◌, drop, length};
ghost use Rattle.std.specs.Fmt.{decimal};
ghost use Rattle.iloc_ops.specs.declared.spelling.digits.TheConstants.{SHORT};

/// Numbers below it are short: they have at most four digits.
pub(super) const SHORT: u32 = 10_000;

/// Writes a short number so that it ends at `end`, and gives where it starts.
///
/// With `write_digits` 0.6 to 1.2 branches more are mispredicted for each operation, which is 1 to 9 ns of the 195 that `schedule`
/// takes for it.
#[inline(always)]
pub(super) fn write_short_number(line: &mut [u8], end: usize, number: u32) -> usize
    requires { (4 ≤ end) × (end ≤ length line.old) × (number < SHORT) }
    ensures space { (result ≤ end) × (end ≤ result + 4) }
    ensures length { length line.new ≡ length line.old }
    ensures written { drop result line.new ≡ decimal number ++ drop end line.old }
{
    let (digits, zeros) = four_digits(number);
    let start = end - 4;
    line[start + 3] = digits[3];
    line[start + 2] = digits[2];
    line[start + 1] = digits[1];
    line[start] = digits[0];
    start + zeros
}

/// The four digits of a short number, zeros first, and where the number starts among them. They are computed side by side.
#[inline(always)]
fn four_digits(number: u32) -> ([u8; 4], usize)
    requires { number < SHORT }
    ensures text { drop result.1 result.0 ≡ decimal number }
    ensures few { result.1 ≤ 4 }
{
    // Products in place of quotients, which are the same below 10,000: by 100, and then of both halves by 10 at once.
    let hundreds = (number * 5243) >> 19;
    let halves = (number << 16) - hundreds * (100 * 65536 - 1);
    let tens = ((halves * 103) >> 10) & 0x000f_000f;
    let digits = (halves << 8) - tens * (10 * 256 - 1);
    let zeros = (digits | 0x0100_0000).trailing_zeros() / 8;
    ((digits + 0x3030_3030).to_le_bytes(), zeros as usize)
}
