//! What holds of the host tables. Each law is a contract; no function does anything.
ghost use Rattle.fx_hostep.specs.HostRuns.{HostPolicyIsKept, HostRunHasOneEnd, HostTablesAgree};

/// The host tables of a closed view give each first packet the view's verdict and reason.
pub fn host_tables_agree()
    ensures { HostTablesAgree }
{}

/// The host tables of resources give each first packet the policy reference's verdict and reason.
pub fn host_policy_is_kept()
    ensures { HostPolicyIsKept }
{}

/// A run from a hook has one end.
pub fn host_run_has_one_end()
    ensures { HostRunHasOneEnd }
{}
