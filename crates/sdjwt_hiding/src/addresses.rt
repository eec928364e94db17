// The places of addresses among those of the parts to hide.
ghost use Rattle.std.specs.Prelude.{◌≡◌, IfOk, List};
ghost use Rattle.claim_names.specs.declared.address.Step.{Step as AStep};
ghost use Rattle.sdjwt_hiding.specs.Addresses.{number_in};
ghost use Rattle.sdjwt_hiding.specs.code.Places.{place_in};

use crate::error::NoMemory;
use claim_tree::{Address, Step};
use std::alloc::Global;
use std::collections::BTreeMap;

// The place of each of some addresses among them, the first of those that are equal.
#[derive(Drop)]
pub struct Places<'a> {
    order: BTreeMap<&'a [Step], u64>,
}

impl<'a> Places<'a> {
    pub fn new(alloc: Global, addresses: &'a [Address]) -> Result<Places<'a>, NoMemory>
        ensures { IfOk result
            (λ places. (a : List AStep) → place_in places a ≡ number_in addresses.now a) }
    {
        let mut order = BTreeMap::new(alloc);
        // From the last on, so that the first of equal addresses is what stays.
        for i in (0..addresses.len()).rev() {
            order.insert(addresses[i].steps(), i as u64)?;
        }
        Ok(Places { order })
    }

    // The place of an address, and none where it is not among them.
    pub fn place(&self, path: &[Step]) -> Option<u64>
        ensures { result ≡ place_in self.now path.now }
    {
        self.order.get(path).copied()
    }
}
