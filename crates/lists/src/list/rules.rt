ghost use Rattle.std.specs.Prelude.{◌≡◌, ◌<◌, IfSome, None};
ghost use Rattle.lists.specs.ListRecords.{FirstFaulty, sound_count};
ghost use Rattle.lists.specs.Lists.{Drawn, Later, ListMade, OfMark, due_of, figures_of, listing};
ghost use Rattle.feeds.specs.Meanings.{Advanced, Taken};

use super::List;
use super::places::{Place, first_places};
use crate::records::{Records, sound_count};
use feeds::feed::Feed;
use feeds::mark::Mark;
use feeds::pledge::Pledge;

// What a list pledges at every mark.
const DISTANCE: u32 = 1;

const MEMORY_CEILING: u32 = 1_000_000;

const PROCESSOR_CEILING: u32 = 1_000_000;

impl<'a> List<'a> {
    // A list over the bytes of a file, whatever they are.
    pub fn new(bytes: &'a [u8]) -> List<'a>
        ensures { ListMade bytes.now result }
    {
        let count = sound_count(bytes);
        List {
            bytes,
            count,
            clock: 0,
            places: first_places(&Records::first(bytes, count)),
        }
    }

    // How many records it takes in: those before the first faulty one.
    pub fn count(&self) -> usize
        ensures value { result ≡ sound_count self.now.bytes.now }
        ensures first { FirstFaulty self.now.bytes.now result }
    {
        self.count
    }

    // The records that it takes in.
    fn records(&self) -> Records<'a>
        ensures bytes { result.bytes.now ≡ self.now.bytes.now }
        ensures count { result.count ≡ self.now.count }
    {
        Records::first(self.bytes, self.count)
    }

    // The number of the record that a mark is offered: the one it stands at, so nothing is looked for.
    fn due(&self, k: Mark) -> Option<usize>
        ensures value { result ≡ due_of self.now k.value }
        ensures within { IfSome result (λ i. i < self.now.count) }
    {
        let Place { cursor, rest } = self.places.get(k);
        let due = rest == 0 && cursor < self.count && self.records().step(cursor) <= self.clock;
        due.then_some(cursor)
    }

    // The memory and the processor steps of a record.
    fn figures(&self, number: usize) -> (u32, u32)
        requires { number < self.now.count }
        ensures { result ≡ figures_of self.now number }
    {
        let arrival = self.records().arrival(number);
        (arrival.memory, arrival.processor)
    }
}

impl<'a> Pledge for List<'a> {
    const LETTER: u8 = b'L';

    ghost initial = { 76 };

    ghost view = { listing };

    fn kind(&self) -> u8 {
        Self::LETTER
    }

    fn distance(&self, k: Mark) -> u32 {
        DISTANCE
    }

    fn memory_ceiling(&self, k: Mark) -> u32 {
        MEMORY_CEILING
    }

    fn processor_ceiling(&self, k: Mark) -> u32 {
        PROCESSOR_CEILING
    }
}

impl<'a> Feed for List<'a> {
    fn look(&self, k: Mark) -> Option<(u32, u32)>
        ensures value { result ≡ (listing self.now).offer k.value }
        ensures own { OfMark self.now k.value result }
    {
        let number = self.due(k)?;
        Some(self.figures(number))
    }

    // The mark goes on to its next record, past the one that was offered.
    fn take(&mut self, k: Mark) -> Option<(u32, u32)>
        ensures taken { Taken (listing self.old) k.value result (listing self.new) }
        ensures idle { (listing self.old).offer k.value ≡ None → self.new ≡ self.old }
        ensures drawn { Drawn self.old k.value self.new }
    {
        let number = self.due(k)?;
        let offer = self.figures(number);
        let cursor = self.records().seek(k.index(), number + 1);
        let rest = DISTANCE;
        self.places.set(k, Place { cursor, rest });
        Some(offer)
    }

    // The clock stops at its last number.
    fn advance(&mut self)
        ensures advanced { Advanced (listing self.old) (listing self.new) }
        ensures later { Later self.old self.new }
    {
        self.places.advance();
        self.clock = self.clock.saturating_add(1);
    }
}
