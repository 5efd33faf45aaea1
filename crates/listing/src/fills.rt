// How full a tag is.
ghost use Rattle.std.specs.Prelude.{◌≡◌};
ghost use Rattle.listing.specs.Fills.{percent, Nearest};

/// The used bytes in per cent of all, to the nearest whole, a half upwards; 0 of no bytes, and no more than 100.
pub fn fill(used: usize, total: usize) -> usize
    ensures value { result ≡ percent used total }
    ensures cases { Nearest used total result }
{
    if total == 0 {
        return 0;
    }
    let used = used.min(total) as u128;
    let total = total as u128;
    ((200 * used + total) / (2 * total)) as usize
}
