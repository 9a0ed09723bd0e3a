ghost use Rattle.std.specs.Prelude.{◌≡◌};
ghost use Rattle.lists.specs.Places.{Placed, lower};

use crate::records::Records;
use feeds::mark::Mark;
use feeds::per_mark::PerMark;
use feeds::timed::Timed;

// Where a mark stands in a list, and for how many steps it rests.
#[derive(Clone, Copy)]
pub(crate) struct Place {
    pub(crate) cursor: usize,
    pub(crate) rest: u32,
}

impl Timed for Place {
    ghost later = { lower };

    fn pass(&mut self) {
        self.rest = self.rest.saturating_sub(1);
    }
}

// Every mark at its first record, and none at rest.
pub(crate) fn first_places(records: &Records) -> PerMark<Place>
    ensures { Placed records.now.bytes.now records.now.count result }
{
    let mut places = PerMark::new(Place { cursor: 0, rest: 0 });
    for k in Mark::all() {
        let cursor = records.seek(k.index(), 0);
        places.set(k, Place { cursor, rest: 0 });
    }
    places
}
