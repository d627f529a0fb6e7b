//! Drawn lines. The lines that are wanted were written from the list in docs/INPUT.md, and not by the program.
use fx_base::Text;
use fx_gen::make_line;
use std::alloc::Global;
use std::test::Fail;

// A seed, an index, and their line on the node `n1`: each kind of line, the ends of what each is drawn by, and numbers that wrap.
const LINES: [(u64, u64, &str); 15] = [
    (0, 0, r#"{"inSync":true}"#),
    (
        0,
        1,
        r#"{"put":{"apiVersion":"projectcalico.org/v3","kind":"GlobalNetworkPolicy","metadata":{"name":"g14"},"spec":{"order":4,"selector":"role == 'r4'","ingress":[{"action":"Allow","protocol":"TCP","source":{"selector":"role == 'r5'"}},{"action":"Deny","source":{"nets":["10.0.30.0/24"]}}]}}}"#,
    ),
    (
        0,
        2,
        r#"{"put":{"apiVersion":"projectcalico.org/v3","kind":"WorkloadEndpoint","metadata":{"name":"w0","namespace":"a","labels":{"role":"r3"}},"spec":{"node":"n1","interfaceName":"cali0","ipNetworks":["10.0.0.1"],"profiles":["open"]}}}"#,
    ),
    (
        0,
        5,
        r#"{"delete":{"apiVersion":"projectcalico.org/v3","kind":"WorkloadEndpoint","metadata":{"name":"w36","namespace":"a"}}}"#,
    ),
    (
        0,
        6,
        r#"{"put":{"apiVersion":"projectcalico.org/v3","kind":"GlobalNetworkSet","metadata":{"name":"s1","labels":{"role":"r5"}},"spec":{"nets":["172.16.5.0/24"]}}}"#,
    ),
    (
        0,
        7,
        r#"{"put":{"apiVersion":"projectcalico.org/v3","kind":"WorkloadEndpoint","metadata":{"name":"w39","namespace":"a","labels":{"role":"r3"}},"spec":{"node":"other-n1","interfaceName":"cali39","ipNetworks":["10.0.39.1"],"profiles":["open"]}}}"#,
    ),
    (
        0,
        10,
        r#"{"delete":{"apiVersion":"projectcalico.org/v3","kind":"WorkloadEndpoint","metadata":{"name":"w11","namespace":"a"}}}"#,
    ),
    (
        0,
        11,
        r#"{"put":{"apiVersion":"projectcalico.org/v3","kind":"Profile","metadata":{"name":"open"},"spec":{"ingress":[{"action":"Allow"}],"egress":[{"action":"Allow"}]}}}"#,
    ),
    (
        0,
        15,
        r#"{"put":{"apiVersion":"projectcalico.org/v3","kind":"GlobalNetworkPolicy","metadata":{"name":"g2"},"spec":{"order":7,"selector":"role == 'r7'","ingress":[{"action":"Allow","protocol":"TCP","source":{"selector":"role == 'r0'"}},{"action":"Deny","source":{"nets":["10.0.50.0/24"]}}]}}}"#,
    ),
    (
        0,
        18,
        r#"{"delete":{"apiVersion":"projectcalico.org/v3","kind":"GlobalNetworkPolicy","metadata":{"name":"g6"}}}"#,
    ),
    (
        0,
        24,
        r#"{"put":{"apiVersion":"projectcalico.org/v3","kind":"WorkloadEndpoint","metadata":{"name":"w31","namespace":"a","labels":{"role":"r2"}},"spec":{"node":"n1","interfaceName":"cali31","ipNetworks":["10.0.31.1"],"profiles":["open"]}}}"#,
    ),
    (
        0,
        29,
        r#"{"put":{"apiVersion":"projectcalico.org/v3","kind":"WorkloadEndpoint","metadata":{"name":"w6","namespace":"a","labels":{"role":"r3"}},"spec":{"node":"n1","interfaceName":"cali6","ipNetworks":["10.0.6.1"],"profiles":["open"]}}}"#,
    ),
    (0, 99, r#"{"flush":{}}"#),
    (
        0,
        100,
        r#"{"put":{"apiVersion":"projectcalico.org/v3","kind":"Profile","metadata":{"name":"open"},"spec":{"ingress":[{"action":"Allow"}],"egress":[{"action":"Allow"}]}}}"#,
    ),
    (
        u64::MAX,
        u64::MAX,
        r#"{"delete":{"apiVersion":"projectcalico.org/v3","kind":"WorkloadEndpoint","metadata":{"name":"w58","namespace":"a"}}}"#,
    ),
];

// A line with an endpoint of another node, up to the end of this node's name and from there.
const BEFORE_NAME: &str =
    r#"{"put":{"apiVersion":"projectcalico.org/v3","kind":"WorkloadEndpoint","metadata":{"name":"w39","namespace":"a","labels":{"role":"r3"}},"spec":{"node":"other-"#;

const BEHIND_NAME: &str =
    r#"","interfaceName":"cali39","ipNetworks":["10.0.39.1"],"profiles":["open"]}}}"#;

#[test]
fn lines_are_those_of_the_list(rt: HostRuntime) -> Result<(), Fail> {
    let alloc = rt.alloc();
    let node = Text::new(alloc, b"n1")?;
    for (seed, index, want) in LINES {
        let line = make_line(alloc, seed, index, &node)?;
        assert!(rt; line.bytes() == want.as_bytes(), "{seed} {index}");
    }
    Ok(())
}

fn name_of(alloc: Global, size: usize) -> Result<Vec<u8>, Fail> {
    let mut name = Vec::new(alloc);
    name.resize(size, b'n')?;
    Ok(name)
}

// Whether another node than the one whose name has so many bytes is named by so many of them.
fn keeps(alloc: Global, size: usize, kept: usize) -> Result<bool, Fail> {
    let line = make_line(alloc, 0, 7, &Text::from_vec(name_of(alloc, size)?)?)?;
    let mut want = Vec::from_slice(alloc, BEFORE_NAME.as_bytes())?;
    want.extend_from_slice(&name_of(alloc, kept)?)?;
    want.extend_from_slice(BEHIND_NAME.as_bytes())?;
    Ok(line.bytes() == want.as_slice())
}

#[test]
fn a_long_name_is_cut(rt: HostRuntime) -> Result<(), Fail> {
    for (size, kept) in [(247, 247), (248, 247), (253, 247)] {
        assert!(rt; keeps(rt.alloc(), size, kept)?, "{size}");
    }
    Ok(())
}
