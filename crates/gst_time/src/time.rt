//! Times.
ghost use Rattle.std.specs.Prelude.{◌≡◌, ◌≢◌, ◌<◌, ◌≤◌, ◌*◌, ◌/◌, ◌^◌, ◌↔◌, IsNone, IfSome};

/// Times are below this, which is 2^63.
pub const LIMIT: u64 = 1 << 63;

/// What the limit is.
pub fn limit_is_a_power()
    ensures { LIMIT ≡ 2 ^ 63 }
{}

/// `n * num / den` with no loss on the way, rounded down, as GStreamer's `gst_util_uint64_scale`. `None` where
/// that is `LIMIT` or more.
pub fn scale(n: u64, num: u64, den: u64) -> Option<u64>
    requires { den ≢ 0 }
    ensures value { IfSome result (λ q. q ≡ n * num / den) }
    ensures below { IfSome result (λ q. q < LIMIT) }
    ensures none { IsNone result ↔ (LIMIT ≤ n * num / den) }
{
    let quotient = u128::from(n) * u128::from(num) / u128::from(den);
    u64::try_from(quotient).ok().filter(|q| *q < LIMIT)
}
