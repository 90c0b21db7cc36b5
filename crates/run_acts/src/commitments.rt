// What the quotas of a phase commit a store to.

ghost use Rattle.std.specs.Prelude.{◌≡◌, ◌<◌, ◌≤◌, ◌^◌, length};
ghost use Rattle.hmac_keys.specs.declared.Keys.{Keys};
ghost use Rattle.app_quota.specs.Commitments.{committed_objects, distinct_apps, is_among, unclaimed_of};
ghost use Rattle.app_quota.specs.Quotas.{limit_of};
ghost use Rattle.run_acts.specs.MountedDevices.{objects_in};

use app_quota::{Quota, limit_of};
use object_calls::Opening;
use rpmb_card::RpmbPort;
use tee_ports::StoreFile;
use tee_types::AppId;

// Whether the application is one of these.
fn is_among(app: AppId, apps: &[AppId]) -> bool
    ensures { result ≡ is_among app apps.now }
{
    for other in apps {
        if *other == app {
            return true;
        }
    }
    false
}

// How many objects the application may have beyond those that it has.
fn unclaimed_objects<F: StoreFile + Drop, R: RpmbPort + Drop>(
    opening: &Opening<F, R>,
    quotas: &[Quota],
    app: AppId,
) -> u32
    ensures unclaimed { (keys : Keys) → result ≡ unclaimed_of (limit_of quotas.now) (objects_in F.state R.state keys opening.now) app }
    ensures few { result < 2 ^ 16 }
{
    let limit = limit_of(quotas, app);
    u32::from(limit.objects.saturating_sub(opening.held(app)))
}

/// How many objects the quotas commit the store to: all that there are, and what each of the applications may have beyond those that it has.
pub(crate) fn committed_objects<F: StoreFile + Drop, R: RpmbPort + Drop>(
    opening: &Opening<F, R>,
    quotas: &[Quota],
    applications: &[AppId],
) -> u32
    requires { length applications.now ≤ 16 }
    ensures { (keys : Keys) → result ≡ committed_objects (limit_of quotas.now) (distinct_apps applications.now) (objects_in F.state R.state keys opening.now) }
{
    let mut sum = u32::from(opening.objects());
    for (index, app) in applications.iter().enumerate() {
        if !is_among(*app, &applications[..index]) {
            sum += unclaimed_objects(opening, quotas, *app);
        }
    }
    sum
}
