//! Guesses over a month: the tally of a batch, the total of many, and the kept share.

ghost use Rattle.std.specs.Prelude.{◌≡◌};
ghost use Rattle.tally.specs.Tally.{tallied};
ghost use Rattle.tally.specs.Total.{total_of};
ghost use Rattle.tally.specs.Share.{kept_share};
ghost use Rattle.sorghemi.specs.Share.{shown_share};

use crate::ShareAnswer;
use engine::Batch;
use tally::{Tally, TallyAnswer};

/// R75: how many jobs the batch holds, and what became of their guesses. Refused with 32.
#[unsafe(no_mangle)]
pub extern "C" fn sorghemi_ask_tally(batch: Batch) -> TallyAnswer
    ensures { result ≡ tallied batch }
{
    Tally::count(batch)
}

/// R76: the tallies that the host lends, added up. Refused with 23.
#[tactic(auto, using(tally::specs::TotalLaws::total_passed))]
#[unsafe(no_mangle)]
pub extern "C" fn sorghemi_total(tallies: &[Tally]) -> TallyAnswer
    ensures { result ≡ total_of tallies.now }
{
    let mut total = TallyAnswer::none();
    for tally in tallies {
        total = total.plus(*tally);
    }
    total
}

/// R77: how many thousandths of the guesses started were kept.
#[unsafe(no_mangle)]
pub extern "C" fn sorghemi_kept_share(tally: Tally) -> ShareAnswer
    ensures { result ≡ shown_share (kept_share tally) }
{
    tally.kept_share().into()
}

impl From<Option<u64>> for ShareAnswer {
    ghost from_gives = { λ share answer. answer ≡ shown_share share };

    #[tactic(auto, unfolding(crate::specs::Share::shown_share))]
    fn from(share: Option<u64>) -> ShareAnswer {
        ShareAnswer {
            present: share.is_some(),
            thousandths: share.unwrap_or(0),
        }
    }
}
