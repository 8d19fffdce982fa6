//! Numbers of CUBIC's curve.
ghost use Rattle.std.specs.Prelude.{◌≡◌, ◌≤◌, ◌<◌, ◌*◌, ◌/◌, ◌^◌};
ghost use Rattle.tcp_congestion.specs.Root.{cube, cubic_root};

/// No cubic root is greater: 2^21 - 1.
const MAX_ROOT: u64 = 2_097_151;

/// The cube of a number below 2^21.
pub(crate) fn cubed(number: u64) -> u64
    requires { number ≤ 2097151 }
    ensures { result ≡ cube number }
{
    number * number * number
}

/// The greatest number whose cube is at most `value`.
pub(crate) fn cubic_root(value: u64) -> u64
    requires { value < cube 2097151 }
    ensures value { result ≡ cubic_root value }
    ensures least { cube result ≤ value }
{
    let mut low = 0;
    let mut high = MAX_ROOT;
    while low + 1 < high {
        let middle = (low + high) / 2;
        if cubed(middle) <= value {
            low = middle;
        } else {
            high = middle;
        }
    }
    low
}

/// `value` times `times` divided by `by`, where the product may be greater than any number here.
pub(crate) fn scaled(value: u64, times: u64, by: u64) -> u64
    requires some { 0 < by }
    requires part { by * times < 2 ^ 64 }
    requires whole { value * times / by < 2 ^ 64 }
    ensures { result ≡ value * times / by }
{
    value / by * times + value % by * times / by
}
