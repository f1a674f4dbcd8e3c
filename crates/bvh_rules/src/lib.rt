// The tree of boxes in a call's table: its nodes and its order, as the tree rules speak of them.

#![tactic(auto)]

ghost use Rattle.std.specs.Prelude.{◌≡◌};
ghost use Rattle.plan.specs.Sections.{objects};
ghost use Rattle.plan.specs.Records.{word_of};
ghost use Rattle.plan.specs.Plan.{count_of};
ghost use Rattle.bvh_rules.specs.Nodes.{nodes_of, order_of, node_at};

use plan::{Floats, Words};
use sdf::Aabb;
use vectors::Vec3;

// A node's words, how many nodes there may be, and how many places the order has.
pub const NODE_WORDS: usize = 9;

pub const NODES_MOST: usize = 511;

pub const PLACES: usize = 256;

// The levels that a tree may have, and those that no tree of 256 objects exceeds.
pub const LEVELS: usize = 64;

pub const LEVELS_MOST: usize = 256;

#[derive(Clone, Copy)]
pub struct Node {
    pub hull: Aabb,
    pub start: u32,
    pub count: u32,
    pub right: u32,
}

// What a node is: a leaf with the next place and its end, or an interior node with the places of its children.
#[derive(Clone, Copy)]
pub enum Kind {
    Leaf(u32, usize),
    Inner(u32, u32),
}

// A subtree: the first place after it, and where its last leaf ends.
#[derive(Clone, Copy)]
pub struct Sub {
    pub next: u32,
    pub ends: usize,
}

// The node at a place; past the last place what no words make.
pub fn node_at(ws: &Words, fs: &Floats, at: usize) -> Node
    ensures { result ≡ node_at (nodes_of ws.now) (nodes_of fs.now) at }
{
    if at < NODES_MOST {
        let i = plan::NODES + NODE_WORDS * at;
        return Node {
            hull: Aabb {
                lo: Vec3 {
                    x: fs[i],
                    y: fs[i + 1],
                    z: fs[i + 2],
                },
                hi: Vec3 {
                    x: fs[i + 3],
                    y: fs[i + 4],
                    z: fs[i + 5],
                },
            },
            start: ws[i + 6],
            count: ws[i + 7],
            right: ws[i + 8],
        };
    }
    Node {
        hull: bvh_boxes::no_box(),
        start: 0,
        count: 0,
        right: 0,
    }
}

// The object at a place of the order, 0 past the last place.
pub fn order_at(ws: &Words, i: usize) -> u32
    ensures { result ≡ word_of (order_of ws.now) i }
{
    if i < PLACES {
        return ws[plan::ORDER + i];
    }
    0
}

// As a call's result the word is known to fit, so it may be cast.
pub fn object_count(ws: &Words) -> u32
    ensures { result ≡ count_of objects ws.now }
{
    ws[plan::COUNT_OBJECTS]
}
