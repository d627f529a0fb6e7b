//! Steps of an agent, and a run of updates that selectors are tested for.
const OPEN: &str =
    r#"{"put":{"apiVersion":"projectcalico.org/v3","kind":"Profile","metadata":{"name":"open"},"spec":{"ingress":[{"action":"Allow"}],"egress":[{"action":"Allow"}]}}}"#;

const FIRST: &str =
    r#"{"put":{"apiVersion":"projectcalico.org/v3","kind":"WorkloadEndpoint","metadata":{"name":"w1","namespace":"a"},"spec":{"node":"n1","interfaceName":"cali1","profiles":["open"]}}}"#;

const SECOND: &str =
    r#"{"put":{"apiVersion":"projectcalico.org/v3","kind":"WorkloadEndpoint","metadata":{"name":"w2","namespace":"a"},"spec":{"node":"n1","interfaceName":"cali2","profiles":["open"]}}}"#;

const SECOND_GONE: &str =
    r#"{"delete":{"apiVersion":"projectcalico.org/v3","kind":"WorkloadEndpoint","metadata":{"name":"w2","namespace":"a"}}}"#;

const IN_SYNC: &str = r#"{"inSync":true}"#;

// From the second endpoint to the first.
const PACKET: &str =
    r#"{"packet":{"in":"cali2","out":"cali1","src":"10.0.0.1","dst":"10.0.0.2","proto":"TCP","sport":40000,"dport":443}}"#;

// It has the role `a`.
const FIRST_A: &str =
    r#"{"put":{"apiVersion":"projectcalico.org/v3","kind":"WorkloadEndpoint","metadata":{"name":"w1","namespace":"a","labels":{"role":"a"}},"spec":{"node":"n1","interfaceName":"cali1","ipNetworks":["10.0.0.1/32"],"profiles":["open"]}}}"#;

// An endpoint of another node, with the role `b`.
const SECOND_B: &str =
    r#"{"put":{"apiVersion":"projectcalico.org/v3","kind":"WorkloadEndpoint","metadata":{"name":"w2","namespace":"a","labels":{"role":"b"}},"spec":{"node":"n2","interfaceName":"cali2","ipNetworks":["10.0.0.9/32"]}}}"#;

// Another one of the same role.
const THIRD_B: &str =
    r#"{"put":{"apiVersion":"projectcalico.org/v3","kind":"WorkloadEndpoint","metadata":{"name":"w3","namespace":"a","labels":{"role":"b"}},"spec":{"node":"n2","interfaceName":"cali3","ipNetworks":["10.0.0.9/32"]}}}"#;

// The second one with the role `c`.
const SECOND_C: &str =
    r#"{"put":{"apiVersion":"projectcalico.org/v3","kind":"WorkloadEndpoint","metadata":{"name":"w2","namespace":"a","labels":{"role":"c"}},"spec":{"node":"n2","interfaceName":"cali2","ipNetworks":["10.0.0.9/32"]}}}"#;

// Packets from the role `b` to the role `a`.
const FROM_B: &str =
    r#"{"put":{"apiVersion":"projectcalico.org/v3","kind":"GlobalNetworkPolicy","metadata":{"name":"g"},"spec":{"selector":"role == 'a'","ingress":[{"action":"Allow","source":{"selector":"role == 'b'"}}]}}}"#;

// From the role `c` in their place.
const FROM_C: &str =
    r#"{"put":{"apiVersion":"projectcalico.org/v3","kind":"GlobalNetworkPolicy","metadata":{"name":"g"},"spec":{"selector":"role == 'a'","ingress":[{"action":"Allow","source":{"selector":"role == 'c'"}}]}}}"#;

/// What is done to an agent and its out, and what comes of it.
#[derive(Clone, Copy)]
pub enum Step {
    /// The update of a line is made. So many tests of selectors were made for this one and those before it.
    Update(&'static str, u64),
    /// The next message has this text. Its first write fails: nothing is kept of it, it stays pending and comes again.
    Message(&'static str),
    /// No message is pending.
    Nothing,
    /// Memory runs out in the next pull.
    WantOfMemory,
    /// A pull, the update of a line and a batch are answered that the agent has to begin anew.
    BeginsAnew(&'static str),
    /// The packet of a line is denied.
    Denied(&'static str),
}

/// As the policy comes, the one endpoint of its role is tested; as the datastore is in sync, the two of the role that
/// its rule names; none as another role takes its place there; and one endpoint as it takes that role. The rule's set
/// has the one address of two endpoints.
pub const SHARED: [Step; 13] = [
    Step::Update(OPEN, 0),
    Step::Update(FIRST_A, 0),
    Step::Update(SECOND_B, 0),
    Step::Update(THIRD_B, 0),
    Step::Update(FROM_B, 1),
    Step::Update(IN_SYNC, 3),
    Step::Message("set-add cali40s:cm9sZSA9PSAiYiIAAAAAAAA hash:net 10.0.0.9/32\n"),
    Step::Message("policy gnp/g gnp/g in 1 out 0\n"),
    Step::Message("profile open open in 1 out 1\n"),
    Step::Message("endpoint cali1 a/w1 in default(gnp/g) out - profiles open\n"),
    Step::Nothing,
    Step::Update(FROM_C, 3),
    Step::Update(SECOND_C, 4),
];

/// Two endpoints come, and memory runs out in the first pull.
pub const WANT_OF_MEMORY: [Step; 7] = [
    Step::Update(OPEN, 0),
    Step::Update(FIRST, 0),
    Step::Update(SECOND, 0),
    Step::Update(IN_SYNC, 0),
    Step::WantOfMemory,
    Step::BeginsAnew(SECOND_GONE),
    Step::Denied(PACKET),
];

/// Selectors of each kind of need, then items, the datastore in sync, labels that change, stay and come back, and
/// selectors that come and go.
pub const STORED: &str = r#"
{"put":{"apiVersion":"projectcalico.org/v3","kind":"GlobalNetworkPolicy","metadata":{"name":"all"},"spec":{"selector":"all()"}}}
{"put":{"apiVersion":"projectcalico.org/v3","kind":"GlobalNetworkPolicy","metadata":{"name":"lacking"},"spec":{"selector":"!has(env)"}}}
{"put":{"apiVersion":"projectcalico.org/v3","kind":"GlobalNetworkPolicy","metadata":{"name":"either"},"spec":{"selector":"role == 'web' || env == 'prod'"}}}
{"put":{"apiVersion":"projectcalico.org/v3","kind":"GlobalNetworkPolicy","metadata":{"name":"unequal"},"spec":{"selector":"role != 'db'"}}}
{"put":{"apiVersion":"projectcalico.org/v3","kind":"GlobalNetworkPolicy","metadata":{"name":"outside"},"spec":{"selector":"role not in {'db','web'}"}}}
{"put":{"apiVersion":"projectcalico.org/v3","kind":"GlobalNetworkPolicy","metadata":{"name":"equal"},"spec":{"selector":"role == 'web'","ingress":[{"action":"Allow","source":{"selector":"role in {'client','db'}"}}]}}}
{"put":{"apiVersion":"projectcalico.org/v3","kind":"GlobalNetworkPolicy","metadata":{"name":"within"},"spec":{"selector":"env in {'prod','test'}","egress":[{"action":"Allow","source":{"notSelector":"has(zone) && role == 'db'"}}]}}}
{"put":{"apiVersion":"projectcalico.org/v3","kind":"GlobalNetworkPolicy","metadata":{"name":"keyed"},"spec":{"selector":"env contains 'ro' && zone starts with 'a'"}}}
{"put":{"apiVersion":"projectcalico.org/v3","kind":"GlobalNetworkPolicy","metadata":{"name":"ending"},"spec":{"selector":"zone ends with '1'"}}}
{"put":{"apiVersion":"projectcalico.org/v3","kind":"NetworkPolicy","metadata":{"name":"own","namespace":"shop"},"spec":{"selector":"has(role)","ingress":[{"action":"Allow","source":{"selector":"role == 'client'"}}]}}}
{"put":{"apiVersion":"projectcalico.org/v3","kind":"Profile","metadata":{"name":"kns.shop"},"spec":{"labelsToApply":{"zone":"a1"},"ingress":[{"action":"Allow","source":{"selector":"zone == 'a1'"}}]}}}
{"put":{"apiVersion":"projectcalico.org/v3","kind":"Profile","metadata":{"name":"extra"},"spec":{"labelsToApply":{"env":"test","zone":"b2"}}}}
{"put":{"apiVersion":"projectcalico.org/v3","kind":"WorkloadEndpoint","metadata":{"name":"w1","namespace":"shop","labels":{"role":"web"}},"spec":{"node":"n1","interfaceName":"caliw1","profiles":["kns.shop"]}}}
{"put":{"apiVersion":"projectcalico.org/v3","kind":"WorkloadEndpoint","metadata":{"name":"w2","namespace":"shop","labels":{"role":"client","env":"prod"}},"spec":{"node":"n2","interfaceName":"caliw2","profiles":["kns.shop"]}}}
{"put":{"apiVersion":"projectcalico.org/v3","kind":"WorkloadEndpoint","metadata":{"name":"w3","namespace":"shop","labels":{"role":"db"}},"spec":{"node":"n2","interfaceName":"caliw3","profiles":[]}}}
{"put":{"apiVersion":"projectcalico.org/v3","kind":"NetworkSet","metadata":{"name":"s1","namespace":"shop","labels":{"role":"client"}},"spec":{"nets":["192.0.2.0/24"]}}}
{"put":{"apiVersion":"projectcalico.org/v3","kind":"GlobalNetworkSet","metadata":{"name":"s2","labels":{"role":"db"}},"spec":{"nets":["198.51.100.0/24"]}}}
{"inSync":true}
{"put":{"apiVersion":"projectcalico.org/v3","kind":"WorkloadEndpoint","metadata":{"name":"w1","namespace":"shop","labels":{"role":"client"}},"spec":{"node":"n1","interfaceName":"caliw1","profiles":["kns.shop"]}}}
{"put":{"apiVersion":"projectcalico.org/v3","kind":"WorkloadEndpoint","metadata":{"name":"w1","namespace":"shop","labels":{"role":"client"}},"spec":{"node":"n1","interfaceName":"caliw1","profiles":["kns.shop"]}}}
{"put":{"apiVersion":"projectcalico.org/v3","kind":"WorkloadEndpoint","metadata":{"name":"w1","namespace":"shop","labels":{"role":"client"}},"spec":{"node":"n1","interfaceName":"caliw1","profiles":["kns.shop","extra"]}}}
{"put":{"apiVersion":"projectcalico.org/v3","kind":"WorkloadEndpoint","metadata":{"name":"w1","namespace":"shop","labels":{"role":"web","env":"prod"}},"spec":{"node":"n1","interfaceName":"caliw1","profiles":["extra","kns.shop"]}}}
{"put":{"apiVersion":"projectcalico.org/v3","kind":"Profile","metadata":{"name":"kns.shop"},"spec":{"labelsToApply":{"zone":"b1"},"ingress":[{"action":"Allow","source":{"selector":"zone == 'a1'"}}]}}}
{"put":{"apiVersion":"projectcalico.org/v3","kind":"Profile","metadata":{"name":"kns.shop"},"spec":{"labelsToApply":{"zone":"b1"}}}}
{"delete":{"apiVersion":"projectcalico.org/v3","kind":"Profile","metadata":{"name":"kns.shop"}}}
{"delete":{"apiVersion":"projectcalico.org/v3","kind":"Profile","metadata":{"name":"extra"}}}
{"put":{"apiVersion":"projectcalico.org/v3","kind":"Profile","metadata":{"name":"kns.shop"},"spec":{"labelsToApply":{"zone":"a1","env":"prod"}}}}
{"put":{"apiVersion":"projectcalico.org/v3","kind":"WorkloadEndpoint","metadata":{"name":"w3","namespace":"shop","labels":{"role":"db","env":"production"}},"spec":{"node":"n1","interfaceName":"caliw3","profiles":["kns.shop"]}}}
{"put":{"apiVersion":"projectcalico.org/v3","kind":"GlobalNetworkPolicy","metadata":{"name":"equal"},"spec":{"selector":"role in {'client','db'}","ingress":[{"action":"Allow","source":{"selector":"role == 'web'"}}]}}}
{"put":{"apiVersion":"projectcalico.org/v3","kind":"GlobalNetworkPolicy","metadata":{"name":"within"},"spec":{"selector":"has(zone)"}}}
{"put":{"apiVersion":"projectcalico.org/v3","kind":"GlobalNetworkPolicy","metadata":{"name":"keyed"},"spec":{"selector":"env contains 'ro' && zone starts with 'a'","order":3}}}
{"delete":{"apiVersion":"projectcalico.org/v3","kind":"GlobalNetworkPolicy","metadata":{"name":"either"}}}
{"delete":{"apiVersion":"projectcalico.org/v3","kind":"WorkloadEndpoint","metadata":{"name":"w1","namespace":"shop"}}}
{"put":{"apiVersion":"projectcalico.org/v3","kind":"WorkloadEndpoint","metadata":{"name":"w1","namespace":"shop","labels":{"role":"web"}},"spec":{"node":"n1","interfaceName":"caliw1","profiles":["kns.shop"]}}}
{"delete":{"apiVersion":"projectcalico.org/v3","kind":"NetworkPolicy","metadata":{"name":"own","namespace":"shop"}}}
{"delete":{"apiVersion":"projectcalico.org/v3","kind":"GlobalNetworkSet","metadata":{"name":"s2"}}}
"#;
