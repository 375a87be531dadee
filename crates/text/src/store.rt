// What a record gives, stored: its names in the table, its map, its statements.
ghost use Rattle.std.specs.Prelude.{◌≡◌, ◌+◌, ◌≤◌, ◌<◌};
ghost use Rattle.rules.specs.Limits.{most_entries};
ghost use Rattle.lines.specs.Lets.{put_nameless, put_let};
ghost use Rattle.lookup.specs.Coded.{written};
ghost use Rattle.lines.specs.Given.{given_count, given_from};
ghost use Rattle.lines.specs.Added.{StatementsFit, Fits};
ghost use Rattle.lines.specs.Stored.{name_slot, table_after, maps_after};

use grammar::line::NameRef;
use lines::limited::Limited;
use lines::step::Put;
use lookup::compile::Ops;
use lookup::table;
use lookup::table::Table;
use rules::limits::{MASKED_FROM, MOST_MAPS, MOST_STATEMENTS, ORIGIN_FROM};
use rules::types::{AffineMap, Statement};
use tokens::limits::NO_PART;

// Stores the names that a record gives; h is what was known above it.
pub(crate) fn store_names(t: &mut Table, h: Limited, p: Put)
    requires { Fits h.known p }
    ensures { t.new ≡ table_after t.old h.known p }
{
    let k = h.known;
    match p {
        Put::Nothing => {}
        Put::Map(x, f) => t[k.mapped] = x,
        Put::Input(x) => {
            t[ORIGIN_FROM + k.wholes] = x;
            table::put_shares(t, MASKED_FROM + k.parts, x, k.shares);
        }
        Put::Stated(x, st) => put_values(t, h, x, 1),
        Put::Let(x, f) => put_values(t, h, x, f.count),
    }
}

// Stores the names of n values in the next entries of their block: the last has the name x, and
// the others have none.
pub(crate) fn put_values(t: &mut Table, h: Limited, x: NameRef, n: usize)
    requires { StatementsFit h.known n }
    ensures { t.new ≡ put_let t.old (name_slot h.known) x n }
{
    let at = name_slot(h);
    let inner = n - 1;
    put_nameless(t, at, inner);
    t[at + inner] = x;
}

// Stores n entries without a name from `at` on.
pub(crate) fn put_nameless(t: &mut Table, at: usize, n: usize)
    requires { at + n ≤ most_entries }
    ensures { t.new ≡ put_nameless t.old at n }
{
    t[at..at + n].fill(NameRef {
        at: 0,
        len: 0,
        part: NO_PART,
    });
}

// The entry of the next name of the block that a statement stands in.
pub(crate) fn name_slot(h: Limited) -> usize
    ensures { result ≡ name_slot h.known }
{
    let k = h.known;
    if k.stage.is_masked() {
        return MASKED_FROM + k.parts;
    }
    ORIGIN_FROM + k.wholes
}

// Stores the statements that a record gives behind the others: of a formula one for each operation.
pub(crate) fn store_statements(
    statements: &mut [Statement; MOST_STATEMENTS],
    h: Limited,
    p: Put,
    ops: &Ops,
)
    requires { Fits h.known p }
    ensures { statements.new ≡ written statements.old (h.known.origin + h.known.masked)
        (given_from ops.now p 0 (given_count p)) }
{
    let at = h.known.origin + h.known.masked;
    match p {
        Put::Stated(x, st) => statements[at] = st,
        Put::Let(x, f) => {
            for i in 0..f.count {
                statements[at + i] = Statement {
                    op: ops[i],
                    line: f.line,
                };
            }
        }
        _ => {}
    }
}

// Stores the map that a record gives behind the others.
pub(crate) fn store_map(maps: &mut [AffineMap; MOST_MAPS], h: Limited, p: Put)
    requires { Fits h.known p }
    ensures { maps.new ≡ maps_after maps.old h.known p }
{
    if let Put::Map(x, f) = p {
        maps[h.known.mapped] = f;
    }
}
