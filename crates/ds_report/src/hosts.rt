//! The names of hosts.
ghost use Rattle.std.specs.Prelude.{◌≡◌};
ghost use Rattle.ds_report.specs.Hosts.{host_name};

use ds_base::HostNo;
use ds_tree::Scenario;

pub(crate) fn host_name(scenario: &Scenario, host: HostNo) -> &[u8]
    ensures { result.now ≡ host_name scenario.now host }
{
    match scenario.hosts.as_slice().get(usize::from(host)) {
        Some(plan) => plan.name.bytes(),
        None => &[],
    }
}
