// What may be picked for each credential query.
ghost use Rattle.std.specs.Prelude.{◌≡◌, ◌<◌, true, false, IfOk, Some, map, length, slice_get};
ghost use Rattle.std.specs.Option.{option_copied};
ghost use Rattle.std.specs.List.Sorted.{IsStrictlySortedBy, IsPartitionPoint};
ghost use Rattle.dcql_answers.specs.Fits.{fit_of, fit_cmp, least_fit};
ghost use Rattle.dcql_answers.specs.code.Places.{is_before as is_fit_before, pick_for};

use crate::error::NoMemory;
use crate::pick::Pick;
use std::alloc::{AllocError, Global};
use std::marker::Model;

/// That a credential meets a credential query under a claim set of it: the places of the three, from 0.
#[derive(Clone, Copy, Debug, Drop)]
pub struct Fit {
    pub query: u16,
    pub credential: u16,
    pub set: u16,
}

/// All that fits, in ascending order: by credential query, then by credential, then by claim set. Contracts
/// see the list of fits.
#[derive(Drop)]
pub struct Fits {
    fits: Vec<Fit>,
}

impl Model for Fits {
    ghost use Rattle.std.specs.Prelude.{List};
    ghost use Rattle.std.specs.List.Sorted.{IsStrictlySortedBy};
    ghost use Rattle.dcql_answers.specs.declared.fits.Fit.{Fit};
    ghost use Rattle.dcql_answers.specs.Fits.{fit_cmp};

    ghost Value = { List Fit };

    ghost view = { λ f. f.fits.items };

    ghost invariant = { λ f. IsStrictlySortedBy fit_cmp f.fits.items };
}

impl Fits {
    /// The fits of these triples of a credential query, a credential and a claim set, which ascend.
    ///
    /// # Errors
    ///
    /// [`NoMemory`] where it is out of memory.
    pub fn from_triples(alloc: Global, triples: &[(u16, u16, u16)]) -> Result<Fits, NoMemory>
        requires { IsStrictlySortedBy fit_cmp (map fit_of triples.now) }
        ensures { IfOk result (λ f. f ≡ map fit_of triples.now) }
    {
        let fits = fits_of(alloc, triples)?;
        Ok(Fits { fits })
    }

    /// How many fits there are. They ascend.
    pub fn len(&self) -> usize
        ensures count { result ≡ length self.now }
        ensures ascending { IsStrictlySortedBy fit_cmp self.now }
    {
        self.fits.len()
    }

    /// Fit `i`: the places of its credential query, its credential and its claim set.
    pub fn at(&self, i: usize) -> (u16, u16, u16)
        requires { i < length self.now }
        ensures { slice_get self.now i ≡ Some (fit_of result) }
    {
        let fit = self.fits[i];
        (fit.query, fit.credential, fit.set)
    }

    /// The least pick for a credential query that is of this credential under this claim set or one after it,
    /// or of a later credential.
    pub fn least(&self, query: usize, credential: u32, set: u32) -> Option<Pick>
        ensures { result ≡ least_fit self.now query credential set }
    {
        least_in(self.fits.as_slice(), query, credential, set)
    }
}

fn least_in(fits: &[Fit], query: usize, credential: u32, set: u32) -> Option<Pick>
    requires { IsStrictlySortedBy fit_cmp fits.now }
    ensures { result ≡ least_fit fits.now query credential set }
{
    pick_at(fits.get(place_from(fits, query, credential, set)), query)
}

// The pick of a fit, where it is one of this credential query.
fn pick_at(fit: Option<&Fit>, query: usize) -> Option<Pick>
    ensures { result ≡ pick_for query (option_copied fit.entry) }
{
    let fit = fit?;
    if fit.query as usize == query {
        Some(Pick {
            credential: fit.credential,
            set: fit.set,
        })
    } else {
        None
    }
}

// The place of the first fit that is not before these places.
fn place_from(fits: &[Fit], query: usize, credential: u32, set: u32) -> usize
    requires { IsStrictlySortedBy fit_cmp fits.now }
    ensures { let before = is_fit_before query credential set in IsPartitionPoint (λ f. before f ≡ true) (λ f.
        before f ≡ false) fits.now result }
{
    fits.partition_point(|fit| is_before(fit, query, credential, set))
}

fn is_before(fit: &Fit, query: usize, credential: u32, set: u32) -> bool
    ensures { result ≡ is_fit_before query credential set fit.now }
{
    let q = fit.query as usize;
    let c = fit.credential as u32;
    let s = fit.set as u32;
    q < query || (q == query && (c < credential || (c == credential && s < set)))
}

fn fits_of(alloc: Global, triples: &[(u16, u16, u16)]) -> Result<Vec<Fit>, AllocError>
    ensures { IfOk result (λ v. v.items ≡ map fit_of triples.now) }
{
    triples
        .iter()
        .map(|(query, credential, set)| Fit {
            query: *query,
            credential: *credential,
            set: *set,
        })
        .collect(alloc)
}
