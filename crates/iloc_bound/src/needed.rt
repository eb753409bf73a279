//! What operations need that share slots.
ghost use Rattle.std.specs.Prelude.{◌≡◌, ◌<◌, ◌^◌};
ghost use Rattle.iloc_rules.specs.Least.{needed};

/// What operations with `tails` need that are issued from the cycle `first` on, if a row can hold `width` of them.
/// Sorts `tails`.
pub(crate) fn needed(first: u64, width: u32, tails: &mut Vec<u32>) -> u64
    requires first { first < 2 ^ 33 }
    requires width { 0 < width }
    ensures { result ≡ needed first width tails.old.items }
{
    tails.sort_unstable();
    let mut most: u64 = 0;
    for i in (0..tails.len()).rev() {
        let longer = (tails.len() - 1 - i) as u64;
        most = most.max(first + longer / u64::from(width) + u64::from(tails[i]));
    }
    most
}
