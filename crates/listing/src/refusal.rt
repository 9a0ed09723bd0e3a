ghost use Rattle.listing.specs.Listings.{fault_text};

use crate::listing::Listed;
use crate::page::Page;
use rows::fault::{LoadFault, Refusal};

impl Listed for LoadFault {
    ghost text = { λ fault. fault_text fault };

    #[tactic(auto, using(crate::proofs::Decimals::length_byte), unfolding(crate::specs::Listings::fault_text))]
    fn write(&self, page: &mut Page) {
        let refusal = Refusal::from(*self);
        page.put(b"turned down ");
        page.put_decimal(refusal.number);
        page.put_record(refusal.record);
        page.put(b"\n");
    }
}
