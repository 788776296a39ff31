//! The nodes of the list of pages: each leads to the next, and the last to the first.

ghost use Rattle.std.specs.Prelude.{◌≡◌, ◌+◌, Some, IfSome};
ghost use Rattle.slab.specs.Slab.{ContainsKey, HasRoomFor};
ghost use Rattle.driver_list.specs.inner.Ring.{Appends, Detaches, Marks, CanDetach};

use sgx_types::names::Page;
use slab::Slab;

/// A page of the list, and whether it is young: touched since it was appended or last moved to the tail (this project's
/// own).
#[derive(Clone, Copy)]
pub struct Listed {
    pub page: Page,
    pub young: bool,
}

// A page of the list, and the key of the next page's node. The last node leads to the first.
#[derive(Clone, Copy)]
pub(crate) struct Node {
    pub(crate) listed: Listed,
    pub(crate) next: usize,
}

// Puts a page behind the last node, and tells the key of its own.
pub(crate) fn append(nodes: &mut Slab<Node>, last: Option<usize>, listed: Listed) -> usize
    requires room { HasRoomFor nodes.old 1 }
    requires last { IfSome last (λ key. ContainsKey nodes.old key) }
    ensures { Appends nodes.old last listed result nodes.new }
{
    match last {
        None => {
            let next = nodes.vacant_key();
            nodes.insert_reserved(Node { listed, next })
        }
        Some(last) => {
            let next = nodes[last].next;
            let key = nodes.insert_reserved(Node { listed, next });
            nodes[last].next = key;
            key
        }
    }
}

// Takes the first node out. Tells its page, and the last node's key then.
pub(crate) fn detach_first(nodes: &mut Slab<Node>, last: usize) -> (Page, Option<usize>)
    requires { CanDetach nodes.old last }
    ensures { Detaches nodes.old last result.0 result.1 nodes.new }
{
    let first = nodes[last].next;
    let node = nodes.remove(first);
    if first == last {
        return (node.listed.page, None);
    }
    nodes[last].next = node.next;
    (node.listed.page, Some(last))
}

// Marks the page of a node as young, or takes the mark away.
pub(crate) fn set_young(nodes: &mut Slab<Node>, key: usize, young: bool)
    requires { ContainsKey nodes.old key }
    ensures { Marks nodes.old key young nodes.new }
{
    nodes[key].listed.young = young;
}
