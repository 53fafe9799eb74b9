// What stands before the ticks of the input, the airframe and the state; and the ticks, a buffer at a time.
ghost use Rattle.std.specs.Prelude.{◌≡◌, ◌*◌, ◌≤◌, length};
ghost use Rattle.airframe_block.specs.Block.{announced_of, header_bytes, most_bytes};
ghost use Rattle.trace.specs.Tick.{tick_bytes};
ghost use Rattle.lines.specs.Opening.{FromBlock, FromBlocks, FromState, accepted, wanted_by};

use crate::input::Input;
use airframe::Airframe;
use airframe_block::{HEADER_BYTES, MOST_BYTES};
use answers::{Answer, Refusal};
use flight::Flight;
use std::io::Read;

// What may be flown.
#[derive(Clone, Copy)]
pub struct Opened {
    pub airframe: Airframe,
    pub flight: Flight,
}

// What a block gives, where its reply is 0.
#[tactic(auto, unfolding(crate::specs::Opening::accepted))]
fn accepted<T: Copy>(answer: Answer, value: T) -> Result<T, Refusal>
    ensures { result ≡ accepted answer value }
{
    answer?;
    Ok(value)
}

// How many bytes of an airframe block are read, by its first two: of a refused header no more than these.
pub fn airframe_wanted(a: u8, b: u8) -> usize
    ensures count { result ≡ wanted_by (announced_of a b) }
    ensures low { header_bytes ≤ result }
    ensures high { result ≤ most_bytes }
{
    match airframe_block::announced_of(a, b) {
        Ok(n) => n,
        Err(_) => HEADER_BYTES,
    }
}

// The airframe block, as far as the input has it.
fn open_airframe<R: Read>(input: &mut Input<R>) -> Result<Airframe, Refusal>
    ensures { FromBlock result }
{
    let mut s = [0; MOST_BYTES];
    let mut n = input.fill(&mut s[..HEADER_BYTES]);
    if n == HEADER_BYTES {
        let wanted = airframe_wanted(s[0], s[1]);
        n += input.fill(&mut s[HEADER_BYTES..wanted]);
    }
    let read = airframe_block::read_airframe(&s[..n]);
    accepted(read.answer, read.airframe)
}

// The state, which must have all its bytes.
fn open_state<R: Read>(input: &mut Input<R>) -> Result<Flight, Refusal>
    ensures { FromState result }
{
    let mut s = [0; state_block::STATE_BYTES];
    let n = input.fill(&mut s);
    let read = state_block::read_full_state(&s[..n]);
    accepted(read.answer, read.flight)
}

// The airframe and the state of the input: behind a refused airframe nothing is read.
pub fn open<R: Read>(input: &mut Input<R>) -> Result<Opened, Refusal>
    ensures { FromBlocks result }
{
    let airframe = open_airframe(input)?;
    let flight = open_state(input)?;
    Ok(Opened { airframe, flight })
}

// How many bytes of ticks are read at a time: their lines, and those of their reflections, go on one page.
pub const TICKS_BYTES: usize = 200 * trace::TICK_BYTES;

// The next 200 ticks, or what is left, in the buffer that is lent.
pub fn read_ticks<'a, R: Read>(input: &mut Input<R>, buf: &'a mut [u8; TICKS_BYTES]) -> &'a [u8]
    ensures { length result.now ≤ 200 * tick_bytes }
{
    let n = input.fill(buf);
    &buf[..n]
}
