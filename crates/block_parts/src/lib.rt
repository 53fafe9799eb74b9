// What blocks of bytes are made of (01, "Blocks"): numbers, vectors, and the numbers of the 8 slots.
#![tactic(auto)]

ghost use Rattle.std.specs.Prelude.{◌≡◌, ◌+◌, ◌≤◌, length};
ghost use Rattle.block_parts.specs.Parts as Parts;

use std::array;
use vector::Vec3;

// How many bytes a number, a vector and the 8 slots' numbers have.
pub const NUMBER_BYTES: usize = 4;

pub const VEC_BYTES: usize = 3 * NUMBER_BYTES;

pub const SLOTS_BYTES: usize = 8 * NUMBER_BYTES;

// The vector whose three numbers stand at `at`.
#[tactic(auto, unfolding(crate::specs::Parts::float_at, crate::specs::Parts::vec_from))]
pub fn read_vec(s: &[u8], at: usize) -> Vec3
    requires { at + Parts.vec_bytes ≤ length s.now }
    ensures { result ≡ Parts.vec_from s.now at }
{
    let x = float::read(s, at);
    let y = float::read(s, at + NUMBER_BYTES);
    let z = float::read(s, at + 2 * NUMBER_BYTES);
    Vec3 { x, y, z }
}

// The 8 slots' numbers that stand at `at`.
pub fn read_floats(s: &[u8], at: usize) -> [f32; 8]
    requires { at + Parts.slots_bytes ≤ length s.now }
    ensures { result ≡ Parts.floats_from s.now at }
{
    array::from_fn(|k| float::read(s, at + NUMBER_BYTES * k))
}

// Writes the vector's three numbers at `at`.
#[tactic(auto, unfolding(crate::specs::Parts::put_float, crate::specs::Parts::put_vec))]
pub fn write_vec(s: &mut [u8], at: usize, v: Vec3)
    requires { at + Parts.vec_bytes ≤ length s.old }
    ensures { s.new ≡ Parts.put_vec s.old at v }
{
    float::write(s, at, v.x);
    float::write(s, at + NUMBER_BYTES, v.y);
    float::write(s, at + 2 * NUMBER_BYTES, v.z);
}

// Writes the 8 slots' numbers at `at`.
#[tactic(auto, unfolding(crate::specs::Parts::put_float, crate::specs::Parts::put_floats))]
pub fn write_floats(s: &mut [u8], at: usize, xs: [f32; 8])
    requires { at + Parts.slots_bytes ≤ length s.old }
    ensures { s.new ≡ Parts.put_floats s.old at xs 8 }
{
    for (k, x) in xs.iter().enumerate() {
        float::write(s, at + NUMBER_BYTES * k, *x);
    }
}
