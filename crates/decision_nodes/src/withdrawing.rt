//! What decided cut nodes cut off (docs/PROCESSING.md, "Live").
ghost use Rattle.std.specs.Prelude.{◌≡◌, ℕ, ◌<◌, length};
ghost use Rattle.decision_nodes.specs.Cutting.{is_cutting, is_cut_from};
ghost use Rattle.decision_nodes.specs.Index.{IsAmong, places_at};

use crate::edge::{Edge, Places};
use crate::entering::node_at;
use crate::node::Node;
use crate::telling::is_open;

// Whether the node of that number is a cut node, and is decided.
fn is_cutting(nodes: &[Node], sequence: u16) -> bool
    requires { sequence < length nodes.now }
    ensures { result ≡ is_cutting nodes.now sequence }
{
    node_at(nodes, sequence).is_cut() && !is_open(nodes, sequence)
}

/// Whether a sequence of these places, or one above it, is a cut node that is decided, over at most `depth`
/// sequences.
pub(crate) fn is_cut_from(nodes: &[Node], parents: &Places, depth: u8, edges: &[Edge]) -> bool
    requires parents { length parents.now ≡ length nodes.now }
    requires edges { (e : Edge) → IsAmong e edges.now → e.sequence < length nodes.now }
    requires above { (s : ℕ) (e : Edge) → IsAmong e (places_at parents.now s)
        → e.sequence < length nodes.now }
    ensures { result ≡ is_cut_from nodes.now parents.now depth edges.now }
{
    if depth == 0 {
        return false;
    }
    for edge in edges {
        if is_cutting(nodes, edge.sequence) {
            return true;
        }
        let above = parents.at(usize::from(edge.sequence));
        if is_cut_from(nodes, parents, depth - 1, above) {
            return true;
        }
    }
    false
}
