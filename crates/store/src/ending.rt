//! How a transaction or a look ends, in the words of the store.

ghost use Rattle.std.specs.Prelude.{◌≡◌};
ghost use Rattle.store.specs.Ending.{ending_of};

use journal_law::Ending;

pub(crate) fn ending_of(why: Ending) -> txn_set::Ending
    ensures { result ≡ ending_of why }
{
    match why {
        Ending::Asked => txn_set::Ending::Asked,
        Ending::Refused(why) => txn_set::Ending::Refused(why),
        Ending::Failed { device, count } => txn_set::Ending::Failed { device, count },
    }
}
