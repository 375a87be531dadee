// The field of 256 elements, over the low byte m of its modulus, and affine maps on it.
#![tactic(auto)]

ghost use Rattle.std.specs.Prelude.{◌≡◌, ◌<◌, get_or};
ghost use Rattle.field.specs.Field.{double, times, power, squared};
ghost use Rattle.field.specs.Maps.{list_of, affine, dual_of, coefficient, coefficients_of};

use std::array;

// a times 2: the bits move up by one, and bit 7 comes back as m.
pub fn doubled(m: u8, a: u8) -> u8
    ensures { result ≡ double m a }
{
    let up = a % 128 * 2;
    if a < 128 { up } else { m ^ up }
}

// The product.
pub fn times(m: u8, a: u8, b: u8) -> u8
    ensures { result ≡ times m a b }
{
    let mut sum = 0;
    let mut x = a;
    let mut y = b;
    // what is added, and what the bits left in y still add, make the product
    for _i in 0..8u8 {
        if y % 2 == 1 {
            sum ^= x;
        }
        x = doubled(m, x);
        y /= 2;
    }
    sum
}

// a to the power e, by squaring.
pub fn power(m: u8, a: u8, e: u8) -> u8
    ensures { result ≡ power (times m) a e }
{
    let mut result = 1;
    let mut x = a;
    let mut n = e;
    // the result, times x to the power n, is the answer; n is halved, not counted
    while 0 < n {
        if n % 2 == 1 {
            result = times(m, result, x);
        }
        x = times(m, x, x);
        n /= 2;
    }
    result
}

// The powers 0 to 255 of a.
pub fn power_table(m: u8, a: u8) -> [u8; 256]
    ensures { result ≡ list_of 256 (power (times m) a) }
{
    let mut out = [0; 256];
    let mut x = 1;
    // x is the power of its place, and the places passed hold theirs
    for p in out.iter_mut() {
        *p = x;
        x = times(m, a, x);
    }
    out
}

// The value at x of the map with the constant c and these columns.
pub fn apply(c: u8, columns: [u8; 8], x: u8) -> u8
    ensures { result ≡ affine c columns x }
{
    let mut sum = c;
    let mut y = x;
    // y is x without the bits of the columns passed
    for column in columns {
        if y % 2 == 1 {
            sum ^= column;
        }
        y /= 2;
    }
    sum
}

// The dual bytes of 1, 2, 4, .. 128 for the modulus 1b.
const DUAL_1B: [u8; 8] = [41, 176, 88, 5, 166, 83, 164, 82];

// The same for the modulus 1d: data for data, told apart by `dual` alone.
const DUAL_1D: [u8; 8] = [173, 216, 193, 67, 2, 1, 142, 71];

// The dual byte of 2 to the power i.
fn dual(m: u8, i: usize) -> u8
    requires { i < 8 }
    ensures { result ≡ get_or (dual_of m) i 0 }
{
    if m == 29 { DUAL_1D[i] } else { DUAL_1B[i] }
}

// The dual bytes for the modulus 1b, squared 0, 1, .. 7 times: eight bytes for each.
const SQUARED_1B: [[u8; 8]; 8] = [
    DUAL_1B,
    [45, 237, 240, 17, 226, 181, 230, 180],
    [61, 12, 70, 26, 89, 252, 73, 253],
    [38, 80, 191, 95, 241, 22, 234, 23],
    [120, 176, 184, 229, 71, 15, 25, 14],
    [156, 237, 173, 76, 190, 85, 90, 84],
    [209, 12, 167, 251, 185, 161, 244, 160],
    [43, 80, 227, 3, 172, 247, 86, 246],
];

// The dual byte of 2 to the power i, squared j times.
fn dual_squared(m: u8, i: usize, j: usize) -> u8
    requires { i < 8 }
    ensures { result ≡ squared (times m) j (get_or (dual_of m) i 0) }
{
    if m == 27 && j < 8 {
        return SQUARED_1B[j][i];
    }
    squares(m, dual(m, i), j)
}

// a squared j times.
pub fn squares(m: u8, a: u8, j: usize) -> u8
    ensures { result ≡ squared (times m) j a }
{
    let mut x = a;
    for _i in 0..j {
        x = times(m, x, x);
    }
    x
}

// Coefficient j of the map with these columns.
pub fn coefficient(m: u8, columns: [u8; 8], j: usize) -> u8
    ensures { result ≡ coefficient (times m) (dual_of m) columns j }
{
    let mut sum = 0;
    for (i, column) in columns.iter().enumerate() {
        sum ^= times(m, *column, dual_squared(m, i, j));
    }
    sum
}

// The eight coefficients of the map with these columns.
pub fn coefficients(m: u8, columns: [u8; 8]) -> [u8; 8]
    ensures { result ≡ coefficients_of m columns }
{
    array::from_fn(|j| coefficient(m, columns, j))
}
