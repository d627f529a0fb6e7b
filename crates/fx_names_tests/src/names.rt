//! Names whose digests and texts another tool has computed.
use fx_base::SetKind;
use fx_names::{DigestFunction, Namer, PlainRule, Prefix, Sha256Rule, ZeroRule};
use sha2::{Digest, Sha256};

// SHA-256 at work.
#[derive(Drop)]
struct Hashes;

impl DigestFunction<Sha256Rule> for Hashes {
    fn digest(&self, text: &[u8]) -> [u8; 32] {
        Sha256::digest(text)
    }
}

fn plain() -> Namer<PlainRule, PlainRule> {
    Namer::new(PlainRule)
}

fn hashed() -> Namer<Sha256Rule, Hashes> {
    Namer::new(Hashes)
}

// A prefix and a suffix, and the chain's name under the plain rule and under SHA-256.
const CHAINS: &str = "\
cali-pi- 123456789012345678 cali-pi-123456789012345678 cali-pi-123456789012345678
cali-pi- _12345678901234567 cali-pi-_12345678901234567 cali-pi-_12345678901234567
cali-pi- 1234567890123456789 cali-pi-1234567890123456789 cali-pi-1234567890123456789
cali-pi- _123456789012345678 cali-pi-_123456789012345678 cali-pi-_123456789012345678
cali-pi- 12345678901234567890 cali-pi-12345678901234567890 cali-pi-12345678901234567890
cali-pi- _1234567890123456789 cali-pi-_XzEyMzQ1Njc4OTAxMjM cali-pi-_PqCZuNIivMPur7hJ69Y
cali-pi- 123456789012345678901234567 cali-pi-_MTIzNDU2Nzg5MDEyMzQ cali-pi-_vWcfYENaO5nUW7uQq8v
cali-pi- _12345678901234567890123456 cali-pi-_XzEyMzQ1Njc4OTAxMjM cali-pi-_XZAYSm5hw12m3252PIg
cali-pi- 1234567890123456789012345678 cali-pi-_MTIzNDU2Nzg5MDEyMzQ cali-pi-_qRUkbZyBkhdLrbLVSX5
cali-pi- _123456789012345678901234567 cali-pi-_XzEyMzQ1Njc4OTAxMjM cali-pi-_5E0hfg-y3WWcLRQ55DR
cali-pi- 12345678901234567890123456789 cali-pi-_MTIzNDU2Nzg5MDEyMzQ cali-pi-_nvjX5Q50rv14ghL-gTs
cali-pi- _1234567890123456789012345678 cali-pi-_XzEyMzQ1Njc4OTAxMjM cali-pi-_as8nKjnEywGhbjywVVT
cali-po- 123456789012345678 cali-po-123456789012345678 cali-po-123456789012345678
cali-po- _12345678901234567 cali-po-_12345678901234567 cali-po-_12345678901234567
cali-po- 1234567890123456789 cali-po-1234567890123456789 cali-po-1234567890123456789
cali-po- _123456789012345678 cali-po-_123456789012345678 cali-po-_123456789012345678
cali-po- 12345678901234567890 cali-po-12345678901234567890 cali-po-12345678901234567890
cali-po- _1234567890123456789 cali-po-_XzEyMzQ1Njc4OTAxMjM cali-po-_PqCZuNIivMPur7hJ69Y
cali-po- 123456789012345678901234567 cali-po-_MTIzNDU2Nzg5MDEyMzQ cali-po-_vWcfYENaO5nUW7uQq8v
cali-po- _12345678901234567890123456 cali-po-_XzEyMzQ1Njc4OTAxMjM cali-po-_XZAYSm5hw12m3252PIg
cali-po- 1234567890123456789012345678 cali-po-_MTIzNDU2Nzg5MDEyMzQ cali-po-_qRUkbZyBkhdLrbLVSX5
cali-po- _123456789012345678901234567 cali-po-_XzEyMzQ1Njc4OTAxMjM cali-po-_5E0hfg-y3WWcLRQ55DR
cali-po- 12345678901234567890123456789 cali-po-_MTIzNDU2Nzg5MDEyMzQ cali-po-_nvjX5Q50rv14ghL-gTs
cali-po- _1234567890123456789012345678 cali-po-_XzEyMzQ1Njc4OTAxMjM cali-po-_as8nKjnEywGhbjywVVT
cali-pri- 123456789012345678 cali-pri-123456789012345678 cali-pri-123456789012345678
cali-pri- _12345678901234567 cali-pri-_12345678901234567 cali-pri-_12345678901234567
cali-pri- 1234567890123456789 cali-pri-1234567890123456789 cali-pri-1234567890123456789
cali-pri- _123456789012345678 cali-pri-_XzEyMzQ1Njc4OTAxMj cali-pri-_5hagUpWFNEyJN6rRcP
cali-pri- 12345678901234567890 cali-pri-_MTIzNDU2Nzg5MDEyMz cali-pri-_btZF7w4avqG_Hk6TX_
cali-pri- _1234567890123456789 cali-pri-_XzEyMzQ1Njc4OTAxMj cali-pri-_PqCZuNIivMPur7hJ69
cali-pri- 123456789012345678901234567 cali-pri-_MTIzNDU2Nzg5MDEyMz cali-pri-_vWcfYENaO5nUW7uQq8
cali-pri- _12345678901234567890123456 cali-pri-_XzEyMzQ1Njc4OTAxMj cali-pri-_XZAYSm5hw12m3252PI
cali-pri- 1234567890123456789012345678 cali-pri-_MTIzNDU2Nzg5MDEyMz cali-pri-_qRUkbZyBkhdLrbLVSX
cali-pri- _123456789012345678901234567 cali-pri-_XzEyMzQ1Njc4OTAxMj cali-pri-_5E0hfg-y3WWcLRQ55D
cali-pri- 12345678901234567890123456789 cali-pri-_MTIzNDU2Nzg5MDEyMz cali-pri-_nvjX5Q50rv14ghL-gT
cali-pri- _1234567890123456789012345678 cali-pri-_XzEyMzQ1Njc4OTAxMj cali-pri-_as8nKjnEywGhbjywVV
cali-pro- 123456789012345678 cali-pro-123456789012345678 cali-pro-123456789012345678
cali-pro- _12345678901234567 cali-pro-_12345678901234567 cali-pro-_12345678901234567
cali-pro- 1234567890123456789 cali-pro-1234567890123456789 cali-pro-1234567890123456789
cali-pro- _123456789012345678 cali-pro-_XzEyMzQ1Njc4OTAxMj cali-pro-_5hagUpWFNEyJN6rRcP
cali-pro- 12345678901234567890 cali-pro-_MTIzNDU2Nzg5MDEyMz cali-pro-_btZF7w4avqG_Hk6TX_
cali-pro- _1234567890123456789 cali-pro-_XzEyMzQ1Njc4OTAxMj cali-pro-_PqCZuNIivMPur7hJ69
cali-pro- 123456789012345678901234567 cali-pro-_MTIzNDU2Nzg5MDEyMz cali-pro-_vWcfYENaO5nUW7uQq8
cali-pro- _12345678901234567890123456 cali-pro-_XzEyMzQ1Njc4OTAxMj cali-pro-_XZAYSm5hw12m3252PI
cali-pro- 1234567890123456789012345678 cali-pro-_MTIzNDU2Nzg5MDEyMz cali-pro-_qRUkbZyBkhdLrbLVSX
cali-pro- _123456789012345678901234567 cali-pro-_XzEyMzQ1Njc4OTAxMj cali-pro-_5E0hfg-y3WWcLRQ55D
cali-pro- 12345678901234567890123456789 cali-pro-_MTIzNDU2Nzg5MDEyMz cali-pro-_nvjX5Q50rv14ghL-gT
cali-pro- _1234567890123456789012345678 cali-pro-_XzEyMzQ1Njc4OTAxMj cali-pro-_as8nKjnEywGhbjywVV
cali-tw- 123456789012345678 cali-tw-123456789012345678 cali-tw-123456789012345678
cali-tw- _12345678901234567 cali-tw-_12345678901234567 cali-tw-_12345678901234567
cali-tw- 1234567890123456789 cali-tw-1234567890123456789 cali-tw-1234567890123456789
cali-tw- _123456789012345678 cali-tw-_123456789012345678 cali-tw-_123456789012345678
cali-tw- 12345678901234567890 cali-tw-12345678901234567890 cali-tw-12345678901234567890
cali-tw- _1234567890123456789 cali-tw-_XzEyMzQ1Njc4OTAxMjM cali-tw-_PqCZuNIivMPur7hJ69Y
cali-tw- 123456789012345678901234567 cali-tw-_MTIzNDU2Nzg5MDEyMzQ cali-tw-_vWcfYENaO5nUW7uQq8v
cali-tw- _12345678901234567890123456 cali-tw-_XzEyMzQ1Njc4OTAxMjM cali-tw-_XZAYSm5hw12m3252PIg
cali-tw- 1234567890123456789012345678 cali-tw-_MTIzNDU2Nzg5MDEyMzQ cali-tw-_qRUkbZyBkhdLrbLVSX5
cali-tw- _123456789012345678901234567 cali-tw-_XzEyMzQ1Njc4OTAxMjM cali-tw-_5E0hfg-y3WWcLRQ55DR
cali-tw- 12345678901234567890123456789 cali-tw-_MTIzNDU2Nzg5MDEyMzQ cali-tw-_nvjX5Q50rv14ghL-gTs
cali-tw- _1234567890123456789012345678 cali-tw-_XzEyMzQ1Njc4OTAxMjM cali-tw-_as8nKjnEywGhbjywVVT
cali-fw- 123456789012345678 cali-fw-123456789012345678 cali-fw-123456789012345678
cali-fw- _12345678901234567 cali-fw-_12345678901234567 cali-fw-_12345678901234567
cali-fw- 1234567890123456789 cali-fw-1234567890123456789 cali-fw-1234567890123456789
cali-fw- _123456789012345678 cali-fw-_123456789012345678 cali-fw-_123456789012345678
cali-fw- 12345678901234567890 cali-fw-12345678901234567890 cali-fw-12345678901234567890
cali-fw- _1234567890123456789 cali-fw-_XzEyMzQ1Njc4OTAxMjM cali-fw-_PqCZuNIivMPur7hJ69Y
cali-fw- 123456789012345678901234567 cali-fw-_MTIzNDU2Nzg5MDEyMzQ cali-fw-_vWcfYENaO5nUW7uQq8v
cali-fw- _12345678901234567890123456 cali-fw-_XzEyMzQ1Njc4OTAxMjM cali-fw-_XZAYSm5hw12m3252PIg
cali-fw- 1234567890123456789012345678 cali-fw-_MTIzNDU2Nzg5MDEyMzQ cali-fw-_qRUkbZyBkhdLrbLVSX5
cali-fw- _123456789012345678901234567 cali-fw-_XzEyMzQ1Njc4OTAxMjM cali-fw-_5E0hfg-y3WWcLRQ55DR
cali-fw- 12345678901234567890123456789 cali-fw-_MTIzNDU2Nzg5MDEyMzQ cali-fw-_nvjX5Q50rv14ghL-gTs
cali-fw- _1234567890123456789012345678 cali-fw-_XzEyMzQ1Njc4OTAxMjM cali-fw-_as8nKjnEywGhbjywVVT";

fn prefix_of(text: &str) -> Option<Prefix> {
    for prefix in [
        Prefix::PolicyIn,
        Prefix::PolicyOut,
        Prefix::ProfileIn,
        Prefix::ProfileOut,
        Prefix::ToEndpoint,
        Prefix::FromEndpoint,
    ] {
        if prefix.bytes() == text.as_bytes() {
            return Some(prefix);
        }
    }
    None
}

#[test]
fn chains(rt: HostRuntime) {
    let mut rows = 0u64;
    for row in CHAINS.lines() {
        let (prefix, rest) = row.split_once(' ').unwrap_or((row, ""));
        let (suffix, names) = rest.split_once(' ').unwrap_or((rest, ""));
        let (by_text, by_hash) = names.split_once(' ').unwrap_or((names, ""));
        let Some(prefix) = prefix_of(prefix) else {
            assert!(rt; false, "at {row}");
            return;
        };
        let name = plain().chain_name(prefix, suffix.as_bytes());
        assert_eq!(rt; name.bytes(), by_text.as_bytes(), "at {row}");
        let name = hashed().chain_name(prefix, suffix.as_bytes());
        assert_eq!(rt; name.bytes(), by_hash.as_bytes(), "at {row}");
        rows = rows.wrapping_add(1);
    }
    assert_eq!(rt; rows, 72);
}

#[test]
fn a_suffix_that_looks_shortened(rt: HostRuntime) {
    let name = plain().chain_name(Prefix::ProfileIn, b"_123456789012345678");
    assert_eq!(rt; name.bytes(), b"cali-pri-_XzEyMzQ1Njc4OTAxMj".as_slice());
}

#[test]
fn sets(rt: HostRuntime) {
    for (kind, text, by_text, by_hash) in [
        (
            SetKind::Ports,
            "tcp,pg,all()",
            "cali40n:dGNwLHBnLGFsbCgpAAAAAAA",
            "cali40n:izqrpdcRDCYA1QmYDtMnLfD",
        ),
        (
            SetKind::Nets,
            r#"role == "b""#,
            "cali40s:cm9sZSA9PSAiYiIAAAAAAAA",
            "cali40s:zyHzBLl3QrswcWnpvDpVZTh",
        ),
    ] {
        let name = plain().set_name(kind, text.as_bytes());
        assert_eq!(rt; name.bytes(), by_text.as_bytes());
        let name = hashed().set_name(kind, text.as_bytes());
        assert_eq!(rt; name.bytes(), by_hash.as_bytes());
    }
}

#[test]
fn all_texts_have_one_name_under_the_zero_rule(rt: HostRuntime) {
    let namer = Namer::<ZeroRule, ZeroRule>::new(ZeroRule);
    for text in ["", r#"role == "b""#, r#"role == "c""#] {
        let name = namer.set_name(SetKind::Nets, text.as_bytes());
        assert_eq!(rt;
            name.bytes(),
            b"cali40s:AAAAAAAAAAAAAAAAAAAAAAA".as_slice(),
            "at {text}"
        );
    }
}
