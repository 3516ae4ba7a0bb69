// The nodes of all threads.
#![tactic(auto)]

ghost use Rattle.std.specs.Prelude.{◌≡◌};
ghost use Rattle.definitions.specs.Answers.{answer_reply};
ghost use Rattle.definitions.specs.Nodes.{nodes_entry};
ghost use Rattle.definitions.specs.Phases.{node_of};
ghost use Rattle.basics.specs.Outputs.{Delivered};
ghost use Rattle.nodes.specs.NodeCodes.{code_of_node};

use definitions::{Refusal, Refused};
use layout::read_task;

// "node codes 0 to 10 in this order"
#[derive(Clone, Copy)]
enum Node {
    Free = 0,
    Es = 1,
    Loe = 2,
    Shared = 3,
    Ls = 4,
    Ee = 5,
    Saf = 6,
    Los = 7,
    Exclusive = 8,
    Le = 9,
    Oe = 10,
}

impl From<Node> for u8 {
    ghost from_gives = { λ node code. code ≡ code_of_node node };

    fn from(node: Node) -> u8 {
        node as u8
    }
}

// The node of a phase: one match on the phase byte with these ranges, the form that the scope paper names.
#[tactic(auto, unfolding(definitions::specs::Phases::rows, definitions::specs::Threads::every, definitions::specs::Threads::among))]
fn node_of(phase: u8) -> Node
    ensures { code_of_node result ≡ node_of phase }
{
    match phase {
        1..=4 | 18 => Node::Es,
        5 => Node::Loe,
        6 => Node::Shared,
        7..=8 => Node::Ls,
        9 => Node::Ee,
        10..=12 => Node::Saf,
        13 => Node::Los,
        14 => Node::Exclusive,
        15 => Node::Le,
        16..=17 => Node::Oe,
        _ => Node::Free,
    }
}

// One byte a thread. Their number is answered.
#[tactic(auto, unfolding(definitions::specs::Nodes::nodes_of))]
pub fn nodes(table: &[u8], out: &mut [u8]) -> Result<usize, Refused>
    ensures { Delivered (nodes_entry table.now) out.old out.new (answer_reply result) }
{
    let threads = table::examine(table)?.threads;
    if out.len() < threads {
        return Err(Refusal::NoRoom.into());
    }
    for (thread, node) in out[..threads].iter_mut().enumerate() {
        *node = node_of(read_task(table, thread).phase).into();
    }
    Ok(threads)
}
