//! Which window is split. Nothing rests on it but that it is wider than a cycle.
ghost use Rattle.std.specs.Prelude.{◌≡◌, ◌<◌, length, MatchOption, slice_index};

use crate::windows::Windows;

/// Of the windows that are wider than a cycle the one that begins first, then the one that ends first, then the lowest.
pub(crate) fn first_open(windows: &Windows) -> Option<usize>
    requires { length windows.now.lasts.items ≡ length windows.now.firsts.items }
    ensures { MatchOption result (Unit {0}) (λ i. (i < length windows.now.firsts.items)
        × (slice_index windows.now.firsts.items i < slice_index windows.now.lasts.items i)) }
{
    let mut found: Option<usize> = None;
    for i in 0..windows.firsts.len() {
        if windows.firsts[i] < windows.lasts[i] {
            let earlier = match found {
                Some(best) => {
                    windows.firsts[i] < windows.firsts[best]
                        || windows.firsts[i] == windows.firsts[best]
                            && windows.lasts[i] < windows.lasts[best]
                }
                None => true,
            };
            if earlier {
                found = Some(i);
            }
        }
    }
    found
}
