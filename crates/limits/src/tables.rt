// A plan and its tree, as the bytes that the library's calls are lent, and what a call answers. The classroom has its
// own: one for both would be a library, with contracts and wrong programs.
use std::fmt;
use wire_lengths::{NODES_BYTES, ORDER_BYTES, OUT_BYTES, PLAN_BYTES};

#[derive(Drop)]
pub struct Tables {
    plan: [u8; PLAN_BYTES],
    nodes: [u8; NODES_BYTES],
    order: [u8; ORDER_BYTES],
}

// How the nearest object is looked for.
#[derive(Clone, Copy, Debug, PartialEq, Eq)]
pub enum Search {
    List,
    Tree,
}

// A sphere at (x, 0, 0), less so many others, each at 0 with radius 0.5.
#[derive(Clone, Copy)]
pub struct Sphere {
    pub x: f32,
    pub radius: f32,
    pub cutters: u32,
}

// The number that a call sends, and the words of its answer.
#[derive(Clone, Copy)]
pub struct Answer {
    pub number: u32,
    out: [u8; OUT_BYTES],
}

impl Answer {
    pub fn word(&self, i: usize) -> u32 {
        words::word(&self.out, i)
    }

    pub fn float(&self, i: usize) -> Float {
        Float(self.word(i))
    }
}

// A float by its bits: 0 to 5 are printed as a number, any other as the bits.
#[derive(Clone, Copy)]
pub struct Float(u32);

impl fmt::Display for Float {
    fn fmt<W: fmt::Write>(&self, f: &mut fmt::Formatter<W>) -> fmt::Result {
        let bits = self.0;
        for n in 0..=5u8 {
            if scalar::bits(n as f32) == bits {
                return write!(f, "{n}");
            }
        }
        write!(f, "bits {bits:08x}")
    }
}

#[derive(Clone, Copy)]
pub struct Corner([Float; 3]);

impl fmt::Display for Corner {
    fn fmt<W: fmt::Write>(&self, f: &mut fmt::Formatter<W>) -> fmt::Result {
        let [x, y, z] = self.0;
        write!(f, "({x}, {y}, {z})")
    }
}

// A node of the tree: its box, the leaf's first place in the order and its count, and the right child.
#[derive(Clone, Copy)]
pub struct Node {
    pub low: Corner,
    pub high: Corner,
    pub start: u32,
    pub count: u32,
    pub right: u32,
}

impl Tables {
    pub const EMPTY: Tables = Tables {
        plan: [0; PLAN_BYTES],
        nodes: [0; NODES_BYTES],
        order: [0; ORDER_BYTES],
    };

    // The tree's tables hold other bytes, which are no tree.
    pub fn spoil_tree(&mut self) {
        self.nodes.fill(7);
        self.order.fill(7);
    }

    pub fn add_material(&mut self) -> Answer {
        let mut out = [0; OUT_BYTES];
        let number = viewer::viewer_add_material(&mut self.plan, &[0; 20], &mut out);
        Answer { number, out }
    }

    pub fn add(&mut self, sphere: Sphere) -> Answer {
        let mut args = [0; 640];
        words::put(&mut args, 2, sphere.cutters);
        words::put(&mut args, 4, scalar::bits(sphere.x));
        words::put(&mut args, 7, scalar::bits(sphere.radius));
        // Each row of 16 words behind the first is a cutter.
        for row in 1..10usize {
            words::put(&mut args, 16 * row + 4, scalar::bits(0.5));
        }
        let mut out = [0; OUT_BYTES];
        let number = viewer::viewer_add_object(
            &mut self.plan,
            &mut self.nodes,
            &mut self.order,
            &args,
            &mut out,
        );
        Answer { number, out }
    }

    pub fn build(&mut self) -> Answer {
        let mut out = [0; OUT_BYTES];
        let number = viewer::viewer_build(&self.plan, &mut self.nodes, &mut self.order, &mut out);
        Answer { number, out }
    }

    // The nearest object to (0, 3, 4).
    pub fn query(&self, search: Search) -> Answer {
        let mut args = [0; 20];
        words::put(&mut args, 1, scalar::bits(3.0));
        words::put(&mut args, 2, scalar::bits(4.0));
        // The bound is the greatest f32.
        words::put(&mut args, 3, 0x7f7f_ffff);
        let mut out = [0; OUT_BYTES];
        let number = viewer::viewer_query(
            &self.plan,
            &self.nodes,
            &self.order,
            search as u32,
            &args,
            &mut out,
        );
        Answer { number, out }
    }

    pub fn order(&self, place: usize) -> u32 {
        words::word(&self.order, place)
    }

    pub fn first_word(&self) -> u32 {
        words::word(&self.nodes, 0)
    }

    // Nine words each.
    pub fn node(&self, k: u8) -> Node {
        let mut node = [0; 9];
        words::load(&self.nodes[36 * (k as usize)..], &mut node);
        let [x0, y0, z0, x1, y1, z1, start, count, right] = node;
        Node {
            low: Corner([Float(x0), Float(y0), Float(z0)]),
            high: Corner([Float(x1), Float(y1), Float(z1)]),
            start,
            count,
            right,
        }
    }
}
