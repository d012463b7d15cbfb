//! Whether a run's value and the lists about its characters fit together.
ghost use Rattle.std.specs.Prelude.{◌≡◌, ◌==◌, ◌&&◌, nat_lt, length, option_copied};
ghost use Rattle.std.specs.List.{list_all};
ghost use Rattle.schema.specs.RunFits.{is_cut_by, rise_below, has_count};

/// Whether all lengths are 1 and all bytes are ASCII. All of them are looked at, so that the loop can be vectorised.
fn are_single(lengths: &[u16], bytes: &[u8]) -> bool
    requires { length bytes.now ≡ length lengths.now }
    ensures { result ≡ (list_all (λ n. n == 1) lengths.now && list_all (λ b. nat_lt b 128) bytes.now) }
{
    let mut are_ones = true;
    let mut most = 0u8;
    for index in 0..lengths.len() {
        are_ones &= lengths[index] == 1;
        most = most.max(bytes[index]);
    }
    are_ones && most < 128
}

/// Whether all lengths are at least 1 and cut the text at character boundaries, with nothing left over.
pub(crate) fn is_cut_by(value: &str, lengths: &[u16]) -> bool
    ensures { result ≡ is_cut_by value.now lengths.now }
{
    if value.len() == lengths.len() && are_single(lengths, value.as_bytes()) {
        return true;
    }
    let mut rest = value;
    for length in lengths {
        if *length == 0 {
            return false;
        }
        let Some((_, after)) = rest.split_at_checked(usize::from(*length)) else {
            return false;
        };
        rest = after;
    }
    rest.is_empty()
}

/// Whether the numbers strictly rise and are below the count.
pub(crate) fn rise_below(numbers: &[u16], count: usize) -> bool
    ensures { result ≡ rise_below numbers.now count }
{
    let mut least = 0usize;
    for number in numbers {
        let number = usize::from(*number);
        if number < least || number >= count {
            return false;
        }
        least = number + 1;
    }
    true
}

/// Whether a list, if there is one, has so many numbers.
pub(crate) fn has_count(list: Option<&[i32]>, count: usize) -> bool
    ensures { result ≡ has_count (option_copied list.entry) count }
{
    match list {
        Some(list) => list.len() == count,
        None => true,
    }
}
