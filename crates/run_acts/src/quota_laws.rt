//! Laws of quotas in a phase. Each function does nothing: its contract is the law.

ghost use Rattle.run_acts.specs.QuotaLaws.{HonestQuotaPhasesIsolate, QuotaPhasesIsolate};

use rpmb_card::RpmbPort;
use tee_ports::{Entropy, StoreFile};

/// In a phase under quotas each application is answered by its own calls alone, from its own objects, or a device has the blame; where
/// nothing that was supposed in the place of damage clashes.
pub fn quota_phases_isolate<F: StoreFile, R: RpmbPort, E: Entropy>(entropy: &E)
    ensures { QuotaPhasesIsolate F.state R.state (E.is_reliable entropy.now) }
{}

/// So it is where every file is honest.
pub fn honest_quota_phases_isolate<F: StoreFile, R: RpmbPort, E: Entropy>(entropy: &E)
    ensures { HonestQuotaPhasesIsolate F.state R.state (E.is_reliable entropy.now) }
{}
