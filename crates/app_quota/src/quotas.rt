//! What applications may have.

ghost use Rattle.std.specs.Prelude.{◌≡◌};
ghost use Rattle.app_quota.specs.Limits.{exceeds, tells_beyond};
ghost use Rattle.app_quota.specs.Quotas.{limit_of};

use app_totals::{Forecast, Totals};
use tee_types::AppId;

/// What an application may have.
#[derive(Clone, Copy, Debug)]
pub struct Quota {
    /// The application.
    pub app: AppId,
    /// How many objects.
    pub objects: u16,
    /// How many bytes of data together.
    pub bytes: u64,
}

/// What an application may have under these quotas: the last of an application counts, and one without any may have 16 objects of
/// 16,777,216 bytes together.
pub fn limit_of(quotas: &[Quota], app: AppId) -> Totals
    ensures { result ≡ limit_of quotas.now app }
{
    let mut limit = Totals {
        objects: 16,
        bytes: 16_777_216,
    };
    for quota in quotas {
        if quota.app == app {
            limit = Totals {
                objects: quota.objects,
                bytes: quota.bytes,
            };
        }
    }
    limit
}

// Whether one of the two numbers rises, and is then above the limit.
fn exceeds(limit: Totals, before: Totals, after: Totals) -> bool
    ensures { result ≡ exceeds limit before after }
{
    before.objects < after.objects && limit.objects < after.objects
        || before.bytes < after.bytes && limit.bytes < after.bytes
}

/// Whether the call of this forecast would leave its application more than it may have.
pub fn tells_beyond(limit: Totals, forecast: &Forecast) -> bool
    ensures { result ≡ tells_beyond limit forecast.now }
{
    let held = Totals {
        objects: forecast.objects,
        bytes: forecast.bytes,
    };
    match forecast.grown {
        Some(left) => exceeds(limit, held, left),
        None => false,
    }
}
