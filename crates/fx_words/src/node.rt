//! Words that ask for a node and for nothing else.
ghost use Rattle.std.specs.Prelude.{◌≡◌, IfSome, true};
ghost use Rattle.std.specs.Option.{option_copied};
ghost use Rattle.fx_words.specs.Words.{is_node_name, node_of};

use crate::words::is_node_name;
use fx_base::Text;

/// The node's name, where the words after the program's name are exactly `--node` and the name, in the form that
/// `read_words` tells. It takes no memory.
pub fn read_node(words: &[Text]) -> Option<&Text>
    ensures node { option_copied result ≡ node_of words.now }
    ensures named { IfSome result (λ node. is_node_name node.now ≡ true) }
{
    let [option, node] = words else {
        return None;
    };
    if option.bytes() == b"--node".as_slice() && is_node_name(node.bytes()) {
        Some(node)
    } else {
        None
    }
}
