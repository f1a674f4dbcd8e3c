// A plan and its tree, as the bytes that the library's calls are lent.
use crate::pieces;
use crate::pieces::Piece;
use crate::refusal::{Refusal, outcome};
use vectors::Vec3;
use wire_lengths::{NODES_BYTES, ORDER_BYTES, OUT_BYTES, PLAN_BYTES};

#[derive(Drop)]
pub struct Tables {
    plan: [u8; PLAN_BYTES],
    nodes: [u8; NODES_BYTES],
    order: [u8; ORDER_BYTES],
}

// How the nearest piece is looked for.
#[derive(Clone, Copy, Debug, PartialEq, Eq)]
pub enum Search {
    List,
    Tree,
}

#[derive(Clone, Copy)]
pub struct Light {
    pub lux: f32,
    pub evaluations: u32,
}

impl Tables {
    pub const EMPTY: Tables = Tables {
        plan: [0; PLAN_BYTES],
        nodes: [0; NODES_BYTES],
        order: [0; ORDER_BYTES],
    };

    // A material of one grey.
    pub fn add_material(&mut self, grey: f32) -> Result<(), Refusal> {
        let mut args = [0u8; 20];
        let mut out = [0u8; OUT_BYTES];
        pieces::put_vec(&mut args, 0, Vec3::splat(grey));
        pieces::put_float(&mut args, 3, 0.5);
        outcome(viewer::viewer_add_material(&mut self.plan, &args, &mut out))
    }

    // A panel by its corners, which go round counter-clockwise as seen from where it shines.
    pub fn add_light(&mut self, corners: [Vec3; 4], emission: f32) -> Result<(), Refusal> {
        let mut args = [0u8; 60];
        let mut out = [0u8; OUT_BYTES];
        for (i, corner) in (0u16..=9).step_by(3).zip(&corners) {
            pieces::put_vec(&mut args, i, *corner);
        }
        pieces::put_vec(&mut args, 12, Vec3::splat(emission));
        outcome(viewer::viewer_add_light(&mut self.plan, &args, &mut out))
    }

    pub fn add_plane<const N: usize>(&mut self, plane: Piece<N>) -> Result<(), Refusal> {
        let mut args = [0u8; 576];
        let mut out = [0u8; OUT_BYTES];
        plane.put(&mut args);
        outcome(viewer::viewer_add_plane(&mut self.plan, &args, &mut out))
    }

    pub fn add_object<const N: usize>(&mut self, object: Piece<N>) -> Result<(), Refusal> {
        let mut args = [0u8; 576];
        let mut out = [0u8; OUT_BYTES];
        object.put(&mut args);
        outcome(viewer::viewer_add_object(
            &mut self.plan,
            &mut self.nodes,
            &mut self.order,
            &args,
            &mut out,
        ))
    }

    pub fn objects(&self) -> u32 {
        words::word(&self.plan, 3)
    }

    // The tree's number of nodes.
    pub fn build(&mut self) -> Result<u32, Refusal> {
        let mut out = [0u8; OUT_BYTES];
        outcome(viewer::viewer_build(&self.plan, &mut self.nodes, &mut self.order, &mut out))?;
        Ok(words::word(&out, 0))
    }

    // How far the nearest piece is.
    pub fn distance(&self, search: Search, from: Vec3) -> Result<f32, Refusal> {
        let mut args = [0u8; 12];
        let mut out = [0u8; OUT_BYTES];
        pieces::put_vec(&mut args, 0, from);
        outcome(viewer::viewer_dist_mat(
            &self.plan,
            &self.nodes,
            &self.order,
            search as u32,
            &args,
            &mut out,
        ))?;
        Ok(scalar::float(words::word(&out, 0)))
    }

    // The material of what a ray meets first, and 0 where it meets nothing.
    pub fn met(&self, from: Vec3, direction: Vec3, farthest: f32) -> u32 {
        let mut args = [0u8; 32];
        let mut out = [0u8; OUT_BYTES];
        pieces::put_vec(&mut args, 0, from);
        pieces::put_vec(&mut args, 3, direction);
        pieces::put_float(&mut args, 7, farthest);
        viewer::viewer_trace(
            &self.plan,
            &self.nodes,
            &self.order,
            Search::Tree as u32,
            &args,
            &mut out,
        );
        words::word(&out, 5)
    }

    // The light that the lamps send straight to a level place. A lamp's emission is in lumens a square metre, so what a
    // white level point sends back is the light that it gets, in lux.
    pub fn light(&self, place: Vec3) -> Result<Light, Refusal> {
        let mut args = [0u8; 36];
        let mut out = [0u8; OUT_BYTES];
        pieces::put_vec(&mut args, 0, place);
        pieces::put_vec(&mut args, 3, pieces::at(0.0, 1.0, 0.0));
        pieces::put_vec(&mut args, 6, Vec3::splat(1.0));
        outcome(viewer::viewer_direct_diffuse(
            &self.plan,
            &self.nodes,
            &self.order,
            Search::Tree as u32,
            &args,
            &mut out,
        ))?;
        Ok(Light {
            lux: scalar::float(words::word(&out, 0)),
            evaluations: words::word(&out, 3),
        })
    }
}
