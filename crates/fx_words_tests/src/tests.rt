//! The words of the command line.
use fx_base::Text;
use fx_words::{read_node, read_words};
use std::alloc::Global;
use std::test::Fail;

// What is asked for: a node, and a seed and a count where lines are to be drawn.
type Want = Option<(&'static str, Option<(u64, u64)>)>;

const N1: Want = Some(("n1", None));

// Lists of words, each word behind a blank but for the first.
const LISTS: [(&str, Want); 61] = [
    ("--node n1", N1),
    ("--node=n1", N1),
    ("--node _", Some(("_", None))),
    ("--node=.", Some((".", None))),
    ("--node a-b", Some(("a-b", None))),
    ("--node node-1.example_x", Some(("node-1.example_x", None))),
    ("--node n1 --soak 1 --count 2", Some(("n1", Some((1, 2))))),
    ("--count 2 --soak 1 --node n1", Some(("n1", Some((1, 2))))),
    ("--count=2 --soak=1 --node=n1", Some(("n1", Some((1, 2))))),
    ("--soak 1 --node=n1 --count 2", Some(("n1", Some((1, 2))))),
    ("--node n1 --soak 0 --count 0", Some(("n1", Some((0, 0))))),
    (
        "--node n1 --soak 18446744073709551615 --count 1000000",
        Some(("n1", Some((18_446_744_073_709_551_615, 1_000_000)))),
    ),
    // An option is missing, or alone.
    ("", None),
    ("n1", None),
    ("--node", None),
    ("n1 --node", None),
    ("--soak 1 --count 2", None),
    ("--node n1 --soak 1", None),
    ("--node n1 --count 2", None),
    ("--node n1 --soak", None),
    ("--node n1 --soak --count 2", None),
    // An option is given twice.
    ("--node n1 --node n1", None),
    ("--node=n1 --node n2", None),
    ("--node n1 --soak 1 --soak 1 --count 2", None),
    ("--node n1 --soak 1 --count 2 --count=2", None),
    // A word is no option.
    ("--node n1 n2", None),
    ("n1 --node n1", None),
    ("--node n1 ", None),
    ("--node n1 --help", None),
    ("--help", None),
    ("--version", None),
    ("-h", None),
    ("-V", None),
    ("help", None),
    ("-n n1", None),
    ("-node n1", None),
    ("---node n1", None),
    ("--no n1", None),
    ("--Node n1", None),
    ("--nodes n1", None),
    ("--=n1", None),
    // The end of the options has no place.
    ("--", None),
    ("-- --node n1", None),
    ("--node -- n1", None),
    ("--node n1 --", None),
    ("--node --", None),
    ("--node -", None),
    // A name isn't in its form.
    ("--node ", None),
    ("--node=", None),
    ("--node= n1", None),
    ("--node -x", None),
    ("--node=-x", None),
    ("--node --soak=1", None),
    ("--node==n1", None),
    ("--node n/1", None),
    ("--node n\u{e4}", None),
    // A number isn't in its form, or is too great.
    ("--node n1 --soak +1 --count 2", None),
    ("--node n1 --soak -1 --count 2", None),
    ("--node n1 --soak 01 --count 2", None),
    ("--node n1 --soak 18446744073709551616 --count 2", None),
    ("--node n1 --soak 1 --count 1000001", None),
];

fn texts(alloc: Global, list: &str) -> Result<Vec<Text>, Fail> {
    let mut words = Vec::new(alloc);
    for word in list.split(' ') {
        words.push(Text::new(alloc, word.as_bytes())?)?;
    }
    Ok(words)
}

fn is_read(alloc: Global, words: &[Text], want: Want) -> Result<bool, Fail> {
    Ok(match (read_words(alloc, words)?, want) {
        (None, None) => true,
        (Some(asked), Some((node, soak))) => {
            asked.node.bytes() == node.as_bytes() && asked.soak.map(|s| (s.seed, s.count)) == soak
        }
        _ => false,
    })
}

#[test]
fn words_are_read_as_the_usage_line_says(rt: HostRuntime) -> Result<(), Fail> {
    let alloc = rt.alloc();
    for (list, want) in LISTS {
        assert!(rt; is_read(alloc, &texts(alloc, list)?, want)?, "{list}");
    }
    assert!(rt; is_read(alloc, &[], None)?);
    Ok(())
}

fn is_name_read(alloc: Global, name: &[u8]) -> Result<bool, Fail> {
    let words = vec![in alloc; Text::new(alloc, b"--node")?, Text::new(alloc, name)?]?;
    Ok(read_words(alloc, &words)?.is_some())
}

#[test]
fn a_name_has_at_most_253_bytes_of_text(rt: HostRuntime) -> Result<(), Fail> {
    assert_eq!(rt; is_name_read(rt.alloc(), &[b'n'; 253])?, true);
    assert_eq!(rt; is_name_read(rt.alloc(), &[b'n'; 254])?, false);
    assert_eq!(rt; is_name_read(rt.alloc(), &[0xff])?, false);
    Ok(())
}

// Lists of words for a program that takes a node and nothing else, and the node that they name.
const NODE_LISTS: [(&str, Option<&str>); 11] = [
    ("--node n1", Some("n1")),
    ("--node node-1.example_x", Some("node-1.example_x")),
    ("", None),
    ("--node", None),
    ("n1", None),
    ("--node=n1", None),
    ("--node -x", None),
    ("--node ", None),
    ("-node n1", None),
    ("n1 --node", None),
    ("--node n1 n2", None),
];

fn is_node(words: &[Text], want: Option<&str>) -> bool {
    match (read_node(words), want) {
        (None, None) => true,
        (Some(node), Some(name)) => node.bytes() == name.as_bytes(),
        _ => false,
    }
}

#[test]
fn a_node_alone_is_two_words(rt: HostRuntime) -> Result<(), Fail> {
    let alloc = rt.alloc();
    for (list, want) in NODE_LISTS {
        assert!(rt; is_node(&texts(alloc, list)?, want), "{list}");
    }
    assert!(rt; is_node(&[], None));
    Ok(())
}
