//! Which calls of a source or a sink in memory are to fail.
ghost use Rattle.std.specs.Prelude.{◌≡◌, ◌↔◌, ◌+◌, IsTrue, Contains};

/// Whether the call after `calls` calls has this number. A call past the last number of 64 bits has none.
pub(crate) fn is_next(calls: u64, number: u64) -> bool
    ensures { IsTrue result ↔ (calls + 1 ≡ number) }
{
    if calls == u64::MAX {
        return false;
    }
    calls + 1 == number
}

/// Whether the call after `calls` calls is listed. A call past the last number of 64 bits can't be.
pub(crate) fn is_next_listed(failing: &[u64], calls: u64) -> bool
    ensures { IsTrue result ↔ Contains failing.now (calls + 1) }
{
    if calls == u64::MAX {
        return false;
    }
    let number = calls + 1;
    failing.contains(&number)
}
