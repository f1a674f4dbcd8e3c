// Three f32 by value, with the operations of glam that the source uses.

#![tactic(auto)]

ghost use Rattle.std.specs.Prelude.{◌≡◌};
ghost use Rattle.std.specs.Float.Ieee.{neg};
ghost use Rattle.vectors.specs.Vec.{vsplat, vadd, vsub, vmul, vscale, vover, vneg, vdot, vcross, vlength, vnormalize};
ghost use Rattle.vectors.specs.Vec.{vlerp, vmin, vmax, vabs, vaxis};

#[derive(Clone, Copy)]
pub struct Vec3 {
    pub x: f32,
    pub y: f32,
    pub z: f32,
}

impl Vec3 {
    #[tactic(auto, unfolding(crate::specs::Vec::vsplat))]
    pub fn splat(a: f32) -> Vec3
        ensures { result ≡ vsplat a }
    {
        Vec3 { x: a, y: a, z: a }
    }

    #[tactic(auto, unfolding(crate::specs::Vec::vadd))]
    pub fn add(self, b: Vec3) -> Vec3
        ensures { result ≡ vadd self b }
    {
        Vec3 {
            x: self.x + b.x,
            y: self.y + b.y,
            z: self.z + b.z,
        }
    }

    #[tactic(auto, unfolding(crate::specs::Vec::vsub))]
    pub fn sub(self, b: Vec3) -> Vec3
        ensures { result ≡ vsub self b }
    {
        Vec3 {
            x: self.x - b.x,
            y: self.y - b.y,
            z: self.z - b.z,
        }
    }

    // By component.
    #[tactic(auto, unfolding(crate::specs::Vec::vmul))]
    pub fn mul(self, b: Vec3) -> Vec3
        ensures { result ≡ vmul self b }
    {
        Vec3 {
            x: self.x * b.x,
            y: self.y * b.y,
            z: self.z * b.z,
        }
    }

    #[tactic(auto, unfolding(crate::specs::Vec::vscale))]
    pub fn scale(self, s: f32) -> Vec3
        ensures { result ≡ vscale self s }
    {
        Vec3 {
            x: self.x * s,
            y: self.y * s,
            z: self.z * s,
        }
    }

    // Each component divided.
    #[tactic(auto, unfolding(crate::specs::Vec::vover))]
    pub fn over(self, s: f32) -> Vec3
        ensures { result ≡ vover self s }
    {
        Vec3 {
            x: self.x / s,
            y: self.y / s,
            z: self.z / s,
        }
    }

    #[tactic(auto, unfolding(crate::specs::Vec::vneg))]
    pub fn neg(self) -> Vec3
        ensures { result ≡ vneg self }
    {
        Vec3 {
            x: -self.x,
            y: -self.y,
            z: -self.z,
        }
    }

    #[tactic(auto, unfolding(crate::specs::Vec::vdot))]
    pub fn dot(self, b: Vec3) -> f32
        ensures { result ≡ vdot self b }
    {
        self.x * b.x + self.y * b.y + self.z * b.z
    }

    #[tactic(auto, unfolding(crate::specs::Vec::vcross))]
    pub fn cross(self, b: Vec3) -> Vec3
        ensures { result ≡ vcross self b }
    {
        Vec3 {
            x: self.y * b.z - b.y * self.z,
            y: self.z * b.x - b.z * self.x,
            z: self.x * b.y - b.x * self.y,
        }
    }

    #[tactic(auto, unfolding(crate::specs::Vec::vlength))]
    pub fn length(self) -> f32
        ensures { result ≡ vlength self }
    {
        root_tests::quick_root(self.dot(self))
    }

    #[tactic(auto, unfolding(crate::specs::Vec::vnormalize))]
    pub fn normalize(self) -> Vec3
        ensures { result ≡ vnormalize self }
    {
        self.scale(1.0 / self.length())
    }

    #[tactic(auto, unfolding(crate::specs::Vec::vlerp))]
    pub fn lerp(self, b: Vec3, s: f32) -> Vec3
        ensures { result ≡ vlerp self b s }
    {
        self.scale(1.0 - s).add(b.scale(s))
    }

    #[tactic(auto, unfolding(crate::specs::Vec::vmin))]
    pub fn min(self, b: Vec3) -> Vec3
        ensures { result ≡ vmin self b }
    {
        Vec3 {
            x: scalar::min(self.x, b.x),
            y: scalar::min(self.y, b.y),
            z: scalar::min(self.z, b.z),
        }
    }

    #[tactic(auto, unfolding(crate::specs::Vec::vmax))]
    pub fn max(self, b: Vec3) -> Vec3
        ensures { result ≡ vmax self b }
    {
        Vec3 {
            x: scalar::max(self.x, b.x),
            y: scalar::max(self.y, b.y),
            z: scalar::max(self.z, b.z),
        }
    }

    #[tactic(auto, unfolding(crate::specs::Vec::vabs))]
    pub fn abs(self) -> Vec3
        ensures { result ≡ vabs self }
    {
        Vec3 {
            x: scalar::abs(self.x),
            y: scalar::abs(self.y),
            z: scalar::abs(self.z),
        }
    }

    // The source's `v[axis]`: 0 is x, 1 is y, any other z. A number, since callers may ask for any word's.
    #[tactic(auto, unfolding(crate::specs::Vec::vaxis))]
    pub fn axis(self, k: u32) -> f32
        ensures { result ≡ vaxis self k }
    {
        match k {
            0 => self.x,
            1 => self.y,
            _ => self.z,
        }
    }
}
