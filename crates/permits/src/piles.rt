ghost use Rattle.permits.specs.Readings.{ListRead, PileRead};

use layers::{Approval, Approvals, Order, Renumber};
use rating::{PumpRating, RatingSheet, RigRating};
use sheet::{FillRefusal, ListSheet, Reading, read_sheet};

/// Reads a list of sets, as a sheet that is lent.
pub fn read_list(rigs: usize, sets: &[u64]) -> Result<Reading, FillRefusal>
    ensures { ListRead rigs sets.now result }
{
    let mut list = ListSheet::new();
    list.fill(rigs, sets)?;
    let lent = &list;
    Ok(read_sheet(&lent))
}

/// Reads a pile of three: ratings, approvals on them, and other rig numbers on that.
pub fn read_pile(
    rigs: &[RigRating],
    pumps: &[PumpRating],
    approvals: &[u64],
    order: &[u8],
) -> Result<Reading, FillRefusal>
    ensures { PileRead rigs.now pumps.now approvals.now order.now result }
{
    let mut ratings = RatingSheet::new();
    ratings.fill(rigs, pumps)?;
    let mut approval = Approval::over(ratings);
    approval.fill(Approvals(approvals))?;
    let mut pile = Renumber::over(approval);
    pile.fill(Order(order))?;
    Ok(read_sheet(&pile))
}
