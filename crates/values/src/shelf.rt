// The directory of the first work buffer: where each statement's value stands, counted in terms.
ghost use Rattle.std.specs.Prelude.{◌≡◌, ◌+◌, ◌<◌, ◌≤◌};
ghost use Rattle.values.specs.Raw.{most_standing};
ghost use Rattle.values.specs.Shelf.{bare, shelved};

// The place of a value: its first term, and how many terms it has.
#[derive(Clone, Copy)]
pub struct Slot {
    pub start: u16,
    pub size: u16,
}

// The places of the values of the first `count` statements; all stand below term `top`. It is
// handed on by value, which the kit's ArrayVec is not, so the count stands beside the array.
#[derive(Clone, Copy)]
pub struct Shelf {
    pub slots: [Slot; 256],
    pub count: usize,
    pub top: usize,
}

impl Shelf {
    // No value stands yet.
    pub fn empty() -> Shelf
        ensures { result ≡ bare }
    {
        Shelf {
            slots: [Slot { start: 0, size: 0 }; 256],
            count: 0,
            top: 0,
        }
    }

    // One value more, of the k terms above all others.
    pub fn put(&mut self, k: usize)
        requires place { self.old.count < 256 }
        requires room { self.old.top + k ≤ most_standing }
        ensures { self.new ≡ shelved self.old k }
    {
        self.slots[self.count] = Slot {
            start: self.top as u16,
            size: k as u16,
        };
        self.count += 1;
        self.top += k;
    }
}
