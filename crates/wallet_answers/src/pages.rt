// Pages of what a wallet can answer.
ghost use Rattle.std.specs.Prelude.{◌≡◌, ◌<◌, ◌≤◌, IfOk, IfErr, Ok, option_map};
ghost use Rattle.std.specs.List.{AllByRecursion};
ghost use Rattle.admitted_answers.specs.Admits.{Admits};
ghost use Rattle.wallet_answers.specs.Admitted.{AreFits};
ghost use Rattle.wallet_answers.specs.Holding.{Holding};
ghost use Rattle.wallet_answers.specs.Listing.{Listing, Page, IsRefusedBy, page_of};

use admitted_answers::page;
use dcql_answers::{Answer, Fits};
use dcql_query::Query;
use option_list::{Error, OptionPage, read_token};
use std::alloc::Global;

/// The admitted answers after the one that has the token `after`, or from the first on, in their order, as
/// many as there are up to `count`, which is from 1 to 1,000. The fits are those that [`fit_table::fill`]
/// gives.
///
/// # Errors
///
/// The rule of [`read_token`] that `after` breaks; out of memory.
pub fn page_after(
    alloc: Global,
    query: &Query,
    fits: &Fits,
    after: Option<&str>,
    count: u32,
) -> Result<OptionPage, Error>
    requires some { 0 < count }
    requires few { count ≤ 1000 }
    ensures page { (listing : Listing) (h : Holding) → AreFits query.now h fits.now → IfOk result (λ p.
        page_of listing query.now h (option_map (λ token. token.now) after.entry) count
        ≡ Ok (record { answers = p.answers; end = p.end })) }
    ensures admitted { IfOk result (λ p. AllByRecursion (Admits query.now fits.now) p.answers) }
    ensures refused { (listing : Listing) (h : Holding) → AreFits query.now h fits.now
        → IfErr result (λ error. IsRefusedBy
        (page_of listing query.now h (option_map (λ token. token.now) after.entry) count) error) }
{
    match after {
        Some(token) => {
            let start = read_token(alloc, query, fits, token)?;
            Ok(page(alloc, query, fits, Some(&start), count)?)
        }
        None => Ok(page(alloc, query, fits, None, count)?),
    }
}
