//! The kept share of a tally.

ghost use Rattle.std.specs.Prelude.{◌≡◌};
ghost use Rattle.tally.specs.Share.{kept_share};

use crate::Tally;

impl Tally {
    /// R77: how many thousandths of the speculative runs started were kept, rounded down; absent where none was started. In
    /// 64 bits, since `kept` times 1000 does not fit 32.
    #[tactic(auto, unfolding(crate::specs::Share::kept_share))]
    pub fn kept_share(self) -> Option<u64>
        ensures { result ≡ kept_share self }
    {
        if self.started == 0 {
            return None;
        }
        Some((self.kept as u64) * 1000 / (self.started as u64))
    }
}
