// A line of a list: input words, ` > `, answer words.
ghost use Rattle.std.specs.Prelude.{IfSome, ◌≡◌, ◌<◌, ◌≤◌, drop, length, take};
ghost use Rattle.arrayvec.specs.ArrayVec.{array_vec_len};

use crate::words;
use arrayvec::ArrayVec;

// What a line says: its words, of which those before the mark are inputs. Where there is no mark, none is.
#[derive(Drop)]
pub struct Case {
    words: ArrayVec<u32, 192>,
    inputs: usize,
    ghost order: { inputs ≤ array_vec_len words },
}

impl Case {
    pub fn inputs(&self) -> &[u32]
        ensures { result.now ≡ take self.now.inputs self.now.words.items }
    {
        &self.words.as_slice()[..self.inputs]
    }

    pub fn expected(&self) -> &[u32]
        ensures { result.now ≡ drop self.now.inputs self.now.words.items }
    {
        &self.words.as_slice()[self.inputs..]
    }
}

// The word at the front of the line, and what stands behind it and the space that follows.
fn split_word(line: &[u8]) -> Option<(u32, &[u8])>
    ensures { IfSome result (λ p. length p.1.now < length line.now) }
{
    let (digits, rest) = line.split_first_chunk::<8>()?;
    if !words::is_word(digits, 0) {
        return None;
    }
    let word = words::word(digits, 0);
    match rest {
        [] => Some((word, rest)),
        [b' ', rest @ ..] => Some((word, rest)),
        _ => None,
    }
}

// The case of a line; `None` where the line is not one of a list, or has more words than any.
pub fn read(line: &[u8]) -> Option<Case> {
    let mut words = ArrayVec::<u32, 192>::new();
    let mut inputs = 0;
    let mut rest = line;
    // By what is left of the line: a word and a mark differ in length.
    while let Some(first) = rest.first() {
        if *first == b'>' {
            if inputs > 0 {
                return None;
            }
            inputs = words.len();
            rest = rest.get(2..).unwrap_or(&[]);
        } else {
            let (word, behind) = split_word(rest)?;
            words.try_push(word).ok()?;
            rest = behind;
        }
    }
    Some(Case { words, inputs })
}
