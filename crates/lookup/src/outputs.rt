// The names of an output line, compared with one another and looked up in the masked set.
ghost use Rattle.std.specs.Prelude.{◌≡◌};
ghost use Rattle.grammar.specs.Recorded.{names_read};
ghost use Rattle.rules.specs.Scope.{repeated};
ghost use Rattle.lookup.specs.Found.{PlacesAre};

use crate::names::Set;
use crate::table;
use grammar::outputs::Outputs;
use tokens::limits::MOST_SHARES;

// Some name stands in the line twice.
pub fn is_repeated(s: &[u8], o: Outputs) -> bool
    ensures { result ≡ repeated (names_read s.now o) }
{
    let items = o.items;
    for i in 0..o.count {
        if table::place(s, &items[..i], items[i]).is_some() {
            return true;
        }
    }
    false
}

// The places of the names, and whether one of them is not given. The clause of `find_outputs` says
// the places also where one is not given, so the flag stands beside them.
#[derive(Clone, Copy)]
pub struct PlacesFound {
    pub unknown: bool,
    pub places: [usize; MOST_SHARES],
}

impl<'a> Set<'a> {
    // Looks up the names of an output line.
    pub fn find_outputs(self, o: Outputs) -> PlacesFound
        ensures { PlacesAre self.entry o result }
    {
        let items = o.items;
        let mut places = [0usize; MOST_SHARES];
        let mut unknown = false;
        for i in 0..o.count {
            let place = self.find(items[i]);
            places[i] = place.unwrap_or(self.names.count);
            unknown |= place.is_none();
        }
        PlacesFound { unknown, places }
    }
}
