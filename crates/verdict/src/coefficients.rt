// The coefficients of a map that is given as nine bytes, its constant first.
ghost use Rattle.std.specs.Prelude.{◌≡◌, ◌≤◌, length, drop};
ghost use Rattle.verdict.specs.Coefficients.{Found};

use crate::report::MapReport;
use tokens::refusal::Refusal;

// The coefficients, lowest power first; 12 and eight zeros where the list is not nine bytes.
pub fn coefficients(list: &[u8]) -> MapReport
    ensures { Found list.now result }
{
    if list.len() != 9 {
        return MapReport {
            coefficients: [0; 8],
            refusal: Refusal::ListLength.number(),
            line: 0,
        };
    }
    let columns = columns_of(list);
    let found = field::coefficients(crate::MODULUS, columns);
    MapReport {
        coefficients: found,
        refusal: 0,
        line: 0,
    }
}

// The eight columns of a map of nine bytes.
fn columns_of(list: &[u8]) -> [u8; 8]
    requires { length list.now ≡ 9 }
    ensures { result ≡ drop 1 list.now }
{
    let mut columns = [0; 8];
    columns.copy_from_slice(&list[1..]);
    columns
}
