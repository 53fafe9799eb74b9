// The numbers of a case: those that go in, and the words that come out.
ghost use Rattle.std.specs.Prelude.{◌≡◌, ◌+◌, ◌<◌, ◌≤◌, ◌==◌, MatchOption, drop, length, take};
ghost use Rattle.arrayvec.specs.ArrayVec.{array_vec_len};

use arrayvec::ArrayVec;
use vector::{Quaternion, Vec3};

// The input words of a case that are still to be read. Where fewer are left than are asked for, the answer is `None`.
#[derive(Clone, Copy)]
pub struct Inputs<'a> {
    words: &'a [u32],
}

impl<'a> Inputs<'a> {
    pub fn new(words: &'a [u32]) -> Self
        ensures { result.words.now ≡ words.now }
    {
        Inputs { words }
    }

    pub fn is_empty(&self) -> bool
        ensures { result ≡ (length self.now.words.now == 0) }
    {
        self.words.is_empty()
    }

    fn words<const N: usize>(&mut self) -> Option<&'a [u32; N]>
        ensures given { MatchOption result (length self.old.words.now < N) (λ words. words.now ≡ take N self.old.words.now) }
        ensures rest { MatchOption result (self.new ≡ self.old) (λ _. self.new.words.now ≡ drop N self.old.words.now) }
    {
        let (words, rest) = self.words.split_first_chunk()?;
        self.words = rest;
        Some(words)
    }

    pub fn word(&mut self) -> Option<u32> {
        let [word] = self.words::<1>()?;
        Some(*word)
    }

    // Words that are floats.
    pub fn numbers<const N: usize>(&mut self) -> Option<[f32; N]>
        ensures { MatchOption result (self.new ≡ self.old) (λ _. self.new.words.now ≡ drop N self.old.words.now) }
    {
        let mut numbers = [0.0; N];
        for (number, word) in numbers.iter_mut().zip(self.words::<N>()?) {
            *number = float::from_bits(*word);
        }
        Some(numbers)
    }

    pub fn number(&mut self) -> Option<f32> {
        let [number] = self.numbers::<1>()?;
        Some(number)
    }

    pub fn vec(&mut self) -> Option<Vec3> {
        let [x, y, z] = self.numbers::<3>()?;
        Some(Vec3::new(x, y, z))
    }

    pub fn quaternion(&mut self) -> Option<Quaternion> {
        let [w, i, j, k] = self.numbers::<4>()?;
        Some(Quaternion { w, i, j, k })
    }

    // A vector for each of the 8 slots.
    pub fn vecs(&mut self) -> Option<[Vec3; 8]> {
        let mut vecs = [Vec3::zeros(); 8];
        for vec in &mut vecs {
            *vec = self.vec()?;
        }
        Some(vecs)
    }

    // A flag for each of the 8 slots, a word that is 0 or 1.
    pub fn flags(&mut self) -> Option<[bool; 8]> {
        let mut flags = [false; 8];
        for flag in &mut flags {
            *flag = self.word()? != 0;
        }
        Some(flags)
    }
}

// The words that answer a case, in order.
#[derive(Drop)]
pub struct Answers {
    words: ArrayVec<u32, 64>,
}

impl Answers {
    pub fn new() -> Self
        ensures { array_vec_len result.words ≡ 0 }
    {
        Answers {
            words: ArrayVec::new(),
        }
    }

    // A number alone.
    pub fn one(number: f32) -> Self
        ensures { array_vec_len result.words ≡ 1 }
    {
        let mut answers = Answers::new();
        answers.push(number);
        answers
    }

    pub fn words(&self) -> &[u32]
        ensures { result.now ≡ self.now.words.items }
    {
        self.words.as_slice()
    }

    pub fn push(&mut self, number: f32)
        requires { array_vec_len self.old.words < 64 }
        ensures { array_vec_len self.new.words ≡ array_vec_len self.old.words + 1 }
    {
        self.words.push(float::to_bits(number));
    }

    pub fn push_all(&mut self, numbers: &[f32])
        requires { array_vec_len self.old.words + length numbers.now ≤ 64 }
        ensures { array_vec_len self.new.words ≡ array_vec_len self.old.words + length numbers.now }
    {
        for number in numbers {
            self.push(*number);
        }
    }

    pub fn push_vec(&mut self, vec: Vec3)
        requires { array_vec_len self.old.words + 3 ≤ 64 }
        ensures { array_vec_len self.new.words ≡ array_vec_len self.old.words + 3 }
    {
        self.push_all(&[vec.x, vec.y, vec.z]);
    }

    pub fn push_quaternion(&mut self, q: Quaternion)
        requires { array_vec_len self.old.words + 4 ≤ 64 }
        ensures { array_vec_len self.new.words ≡ array_vec_len self.old.words + 4 }
    {
        self.push_all(&[q.w, q.i, q.j, q.k]);
    }

    pub fn push_vecs(&mut self, vecs: [Vec3; 8])
        requires { array_vec_len self.old.words + 24 ≤ 64 }
        ensures { array_vec_len self.new.words ≡ array_vec_len self.old.words + 24 }
    {
        for vec in vecs {
            self.push_vec(vec);
        }
    }

    pub fn push_flags(&mut self, flags: [bool; 8])
        requires { array_vec_len self.old.words + 8 ≤ 64 }
        ensures { array_vec_len self.new.words ≡ array_vec_len self.old.words + 8 }
    {
        for flag in flags {
            self.words.push(u32::from(flag));
        }
    }
}
