//! The rank of a chain, by its name.
ghost use Rattle.std.specs.Prelude.{◌≡◌};
ghost use Rattle.fx_model.specs.Directions.{Ingress, Egress};
ghost use Rattle.fx_model.specs.Tables.{root_of};
ghost use Rattle.fx_model.specs.Ranks.{rank_of, is_root, is_child_of, is_child, is_host_hook, is_host_root, is_of_endpoint, is_of_host_endpoint};

use fx_base::ChainName;

/// How far up the way of a packet a chain stands: rules lead to lower ranks alone.
pub fn rank_of(name: &ChainName) -> u8
    ensures { result ≡ rank_of name.now }
{
    let bytes = name.bytes();
    if bytes == b"cali-FORWARD".as_slice() || is_host_hook(bytes) {
        4
    } else if is_root(bytes) || is_host_root(bytes) {
        3
    } else if is_child(bytes) {
        2
    } else if is_of_endpoint(bytes) || is_of_host_endpoint(bytes) {
        1
    } else {
        0
    }
}

fn is_host_hook(bytes: &[u8]) -> bool
    ensures { result ≡ is_host_hook bytes.now }
{
    bytes == b"cali-INPUT".as_slice() || bytes == b"cali-OUTPUT".as_slice()
}

fn is_root(bytes: &[u8]) -> bool
    ensures { result ≡ is_root bytes.now }
{
    bytes == b"cali-from-wl-dispatch".as_slice() || bytes == b"cali-to-wl-dispatch".as_slice()
}

fn is_host_root(bytes: &[u8]) -> bool
    ensures { result ≡ is_host_root bytes.now }
{
    bytes == b"cali-from-host-endpoint".as_slice() || bytes == b"cali-to-host-endpoint".as_slice()
}

fn is_child(bytes: &[u8]) -> bool
    ensures { result ≡ is_child bytes.now }
{
    is_from_child(bytes) || is_to_child(bytes)
}

fn is_from_child(bytes: &[u8]) -> bool
    ensures { result ≡ is_child_of (root_of Egress) bytes.now }
{
    bytes.starts_with(b"cali-from-wl-dispatch-") && bytes.len() == 23
}

fn is_to_child(bytes: &[u8]) -> bool
    ensures { result ≡ is_child_of (root_of Ingress) bytes.now }
{
    bytes.starts_with(b"cali-to-wl-dispatch-") && bytes.len() == 21
}

fn is_of_endpoint(bytes: &[u8]) -> bool
    ensures { result ≡ is_of_endpoint bytes.now }
{
    bytes.starts_with(b"cali-tw-") || bytes.starts_with(b"cali-fw-")
}

fn is_of_host_endpoint(bytes: &[u8]) -> bool
    ensures { result ≡ is_of_host_endpoint bytes.now }
{
    bytes.starts_with(b"cali-fh-") || bytes.starts_with(b"cali-th-")
}
