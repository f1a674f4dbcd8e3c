// A light as shading uses it: its corners with their centre and normal, which way it faces, how large it is.

#![tactic(auto)]

ghost use Rattle.std.specs.Prelude.{◌≡◌};
ghost use Rattle.panel.specs.Panels.{panel_of, culled_of, radius_of, at_light_number};

use plan::QuadLight;
use quad::Quad;
use vectors::Vec3;

// A light as shading uses it.
#[derive(Clone, Copy)]
pub struct Panel {
    pub quad: Quad,
    pub center: Vec3,
    pub normal: Vec3,
    pub emit: Vec3,
}

#[tactic(auto, unfolding(crate::specs::Panels::panel_of))]
pub fn panel_of(l: QuadLight) -> Panel
    ensures { result ≡ panel_of l }
{
    let QuadLight {
        v0,
        v1,
        v2,
        v3,
        emit,
    } = l;
    let quad = Quad { v0, v1, v2, v3 };
    Panel {
        quad,
        center: quad.center(),
        normal: quad.normal(),
        emit,
    }
}

// Whether the panel faces away from a point that `to` leads from.
#[tactic(auto, unfolding(crate::specs::Panels::culled_of))]
pub fn culled(a: Panel, to: Vec3) -> bool
    ensures { result ≡ culled_of a to }
{
    a.normal.dot(to.normalize().neg()) <= 0.0
}

#[tactic(auto, unfolding(crate::specs::Panels::radius_of))]
pub fn radius_of(a: Panel) -> f32
    ensures { result ≡ radius_of a }
{
    scalar::max(root::root(a.quad.area() / 3.14159274), 0.0001)
}

// 9 where the panel's centre is at p by the computed length.
#[tactic(auto, unfolding(crate::specs::Panels::at_light_number))]
pub fn at_light_number(p: Vec3, l: QuadLight) -> u32
    ensures { result ≡ at_light_number p l }
{
    let a = panel_of(l);
    if a.center.sub(p).length() == 0.0 {
        return refusals::AT_LIGHT;
    }
    0
}
