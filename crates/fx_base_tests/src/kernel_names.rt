//! The order of names that the kernel knows.
use fx_base::{ChainName, KernelName, SetKind, SetName};

#[test]
fn chains_before_sets(rt: HostRuntime) {
    let late = KernelName::Chain(ChainName::join(b"cali", b"web"));
    let early = KernelName::Chain(ChainName::join(b"cali", b"db"));
    let set = KernelName::Set(SetName::new(SetKind::Nets, [b'a'; 23]));
    assert!(rt; early < late);
    // `caliweb` is above `cali40s:`, and stands before it as a chain
    assert!(rt; late.bytes() > set.bytes());
    assert!(rt; late < set);
}
