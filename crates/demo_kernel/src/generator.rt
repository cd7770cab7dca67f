//! Numbers that look random, and are the same each time.
ghost use Rattle.std.specs.Prelude.{◌≡◌, ◌<◌};
ghost use Rattle.demo_kernel.specs.Kernel.{next, drawn};

/// The generator's next number.
pub(crate) fn next(number: u64) -> u64
    ensures { result ≡ next number }
{
    number
        .wrapping_mul(6364136223846793005)
        .wrapping_add(1442695040888963407)
}

/// What is drawn by the generator's number: a number below `limit`.
pub(crate) fn drawn(number: u64, limit: u64) -> u64
    requires { 0 < limit }
    ensures value { result ≡ drawn number limit }
    ensures below { result < limit }
{
    (number >> 33) % limit
}
