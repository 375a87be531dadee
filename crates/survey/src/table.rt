// The maps' coefficients and constants as tables.
ghost use Rattle.std.specs.Prelude.{◌≤◌, length};
ghost use Rattle.survey.specs.Table.{Listed, Constants};

use rules::types::AffineMap;
use values::tables::Tables;

// The coefficients and the constant of each map; past the last they are 0.
pub(crate) fn list_maps(m: u8, maps: &[AffineMap]) -> Tables
    requires { length maps.now ≤ 8 }
    ensures lists { Listed m maps.now result.lists 8 }
    ensures constants { Constants maps.now result.constants 8 }
{
    let mut t = Tables {
        lists: [[0; 8]; 8],
        constants: [0; 8],
    };
    // the first f maps are listed, and behind them stands 0
    for (f, map) in maps.iter().enumerate() {
        t.lists[f] = field::coefficients(m, map.columns);
        t.constants[f] = map.constant;
    }
    t
}
