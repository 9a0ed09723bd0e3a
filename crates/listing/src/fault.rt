ghost use Rattle.listing.specs.Faults.{listing_number};
ghost use Rattle.std.specs.Prelude.{◌≡◌};

// Why a listing is not written.
#[derive(Clone, Copy, PartialEq, Eq, Debug)]
pub enum ListingFault {
    // The buffer is shorter than the longest listing.
    ShortBuffer,
}

// Stays: the numbers of refusals are a rule of the project.
impl ListingFault {
    pub fn number(&self) -> u8
        ensures { result ≡ listing_number self.now }
    {
        match self {
            ListingFault::ShortBuffer => 63,
        }
    }
}
