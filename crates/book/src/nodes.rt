// The nodes of a book against the node rules, strip by strip.
ghost use Rattle.std.specs.Prelude.{◌≡◌, ◌+◌, ◌≤◌, ◌<◌, length, MatchResult};
ghost use Rattle.std.specs.Result.{result_err};
ghost use Rattle.book.specs.Counting.{total, Lowest};
ghost use Rattle.book.specs.Layout.{node_count, method_count, method_nodes, top_count};
ghost use Rattle.book.specs.Faults.{FreeBelow, Looks, wrong_node};
ghost use Rattle.book.specs.Noted.{Proper, Counted, Marked, LowestIn, named_by, used_by};

use crate::entry::Strip;
use crate::fault::Fault;
use crate::layout::{METHODS, header_at, method_strips, top_strip};
use crate::member::Member;
use crate::node::{Node, Part};

// The most nodes that a book has. Each has a mark in an array, since reading takes no heap.
const MOST: usize = 4000;

// Counts a part of a node as used, where it lies right.
fn mark(marks: &mut [u8], member: &Member, part: Option<Part>)
    ensures { Counted marks.old marks.new (named_by member.now.bytes.now member.now.node part) }
{
    if let Some(part) = part {
        let p = usize::from(part.node);
        if member.lies_right(part.node) && p < marks.len() {
            marks[p] = marks[p].saturating_add(1);
        }
    }
}

// Counts the parts of a node as used.
fn mark_parts(marks: &mut [u8], member: &Member)
    ensures { Counted marks.old marks.new (used_by member.now.bytes.now member.now.node) }
{
    if let Ok(node) = Node::try_from(member.raw()) {
        let parts = node.parts();
        mark(marks, member, parts.a);
        mark(marks, member, parts.b);
        mark(marks, member, parts.d);
    }
}

// Looks for a wrong node in a strip, once the parts of the strip's nodes are counted as used.
#[tactic(auto, using(crate::proofs::Counts::total_more, crate::proofs::Marking::uses_until))]
fn check_strip(bytes: &[u8], marks: &mut [u8; MOST], strip: Strip) -> Result<(), usize>
    requires few { node_count bytes.now ≤ 4000 }
    requires strips { total (method_nodes bytes.now) (method_count bytes.now) + top_count bytes.now ≡ node_count bytes.now }
    requires proper { Proper bytes.now strip }
    requires room { strip.first + strip.nodes ≤ node_count bytes.now }
    requires marked { Marked bytes.now marks.old strip.first }
    ensures marked { Marked bytes.now marks.new (strip.first + strip.nodes) }
    ensures lowest { LowestIn (wrong_node bytes.now) strip.first (strip.first + strip.nodes) (result_err result) }
{
    let first = strip.first as u16;
    let end = first + strip.nodes;
    // By number: a node is read at its number in the file.
    for node in first..end {
        mark_parts(marks, &Member { bytes, strip, node });
    }
    for node in first..end {
        let mark = marks[usize::from(node)];
        if (Member { bytes, strip, node }).is_wrong(mark) {
            return Err(usize::from(node));
        }
    }
    Ok(())
}

// Looks for the lowest wrong node.
#[tactic(auto, using(crate::proofs::Counts::total_more, crate::proofs::Laying::method_fits, crate::proofs::Laying::proper_command, crate::proofs::Laying::proper_returned, crate::proofs::Laying::proper_top))]
fn check_strips(bytes: &[u8]) -> Result<(), usize>
    requires few { node_count bytes.now ≤ 4000 }
    requires strips { total (method_nodes bytes.now) (method_count bytes.now) + top_count bytes.now ≡ node_count bytes.now }
    ensures { Lowest (wrong_node bytes.now) (result_err result) }
{
    let mut marks = [0; MOST];
    let mut first = 0;
    for m in 0..header_at(bytes, METHODS) {
        let (command, returned) = method_strips(bytes, m, first);
        check_strip(bytes, &mut marks, command)?;
        check_strip(bytes, &mut marks, returned)?;
        first = returned.first + usize::from(returned.nodes);
    }
    check_strip(bytes, &mut marks, top_strip(bytes))
}

// A node against the node rules, or not exactly once a part.
#[tactic(auto, using(crate::proofs::Ranks::few_nodes, crate::proofs::Ranks::nodes_add_up, crate::proofs::Ranks::nodes_free, crate::proofs::Ranks::node_first))]
pub(crate) fn check_nodes(bytes: &[u8]) -> Result<(), Fault>
    requires { FreeBelow bytes.now 7 }
    ensures { Looks bytes.now 7 result }
{
    check_strips(bytes).map_err(Fault::Node)
}
