// A flight and its reflection, tick by tick.
ghost use Rattle.std.specs.Prelude.{◌≡◌, ◌+◌, ◌*◌, ◌≤◌, ◌++◌, length};
ghost use Rattle.lines.specs.Summary.{end_beside};
ghost use Rattle.lines.specs.Tracks as Tracks;
ghost use Rattle.std.proofs.Common.{arith};
ghost use Rattle.lines.specs.Page.{line_bytes, page_bytes};
ghost use Rattle.lines.specs.InParts as InParts;

use crate::compare;
use crate::log::Log;
use crate::page::Page;
use airframe::Airframe;
use answers::Answer;
use flight::{Flight, Tick};
use std::num::NonZeroU64;
use wing::TickResult;

// The two states after the ticks flown, how many they were, how many of them each flight accepted, and the first that does not
// mirror.
#[derive(Clone, Copy)]
pub struct Track {
    pub first: Flight,
    pub second: Flight,
    pub ticks: u64,
    pub accepted: u64,
    pub accepted_mirrored: u64,
    pub differs: Option<NonZeroU64>,
}

// One more where the answer is 0.
#[tactic(auto, unfolding(crate::specs::Tracks::count_of))]
fn counted(count: u64, answer: Answer) -> u64
    ensures { result ≡ Tracks.count_of count answer }
{
    if answer.is_ok() {
        return count.wrapping_add(1);
    }
    count
}

// The first tick that does not mirror, this one being `index`.
#[tactic(auto, unfolding(crate::specs::Tracks::unlike_of))]
fn first_unlike(
    differs: Option<NonZeroU64>,
    index: u64,
    x: TickResult,
    y: TickResult,
) -> Option<NonZeroU64>
    ensures { Tracks.tick_or_0 result ≡ Tracks.unlike_of (Tracks.tick_or_0 differs) index x y }
{
    match differs {
        Some(_) => differs,
        None if compare::is_mirrored(x, y) => None,
        None => NonZeroU64::new(index),
    }
}

impl Page {
    // Puts the lines of the tick `index`.
    #[tactic(auto, unfolding(crate::specs::Tracks::pair_text))]
    fn put_both(&mut self, index: u64, x: TickResult, y: TickResult)
        requires { length self.old + 2 * line_bytes ≤ page_bytes }
        ensures page { self.new ≡ self.old ++ Tracks.pair_text index x y }
        ensures within { length self.new ≤ length self.old + 2 * line_bytes }
    {
        self.put_line(index, x.report.answer, x.flight);
        self.put_mirrored_line(index, y.report.answer, y.flight);
    }
}

impl Track {
    // After a tick that gave x, and y in the reflection.
    #[tactic(auto, unfolding(crate::specs::Tracks::tracks_after))]
    fn after(self, x: TickResult, y: TickResult) -> Track
        ensures { Tracks.tracks_of result ≡ Tracks.tracks_after (Tracks.tracks_of self) x y }
    {
        let ticks = self.ticks.wrapping_add(1);
        Track {
            first: x.flight,
            second: y.flight,
            ticks,
            accepted: counted(self.accepted, x.report.answer),
            accepted_mirrored: counted(self.accepted_mirrored, y.report.answer),
            differs: first_unlike(self.differs, ticks, x, y),
        }
    }
}

impl Log for Track {
    ghost starts = { Tracks.StartsBeside };

    ghost leads = { Tracks.LeadsBeside };

    ghost lines = { Tracks.lines_beside };

    ghost ends = { end_beside };

    ghost room = { 2 * line_bytes };

    #[tactic(auto, unfolding(crate::specs::Tracks::tracks_at_start))]
    fn start(f: Flight) -> Track {
        Track {
            first: f,
            second: f.reflected(),
            ticks: 0,
            accepted: 0,
            accepted_mirrored: 0,
            differs: None,
        }
    }

    #[tactic(auto, unfolding(crate::specs::Tracks::shown_on, crate::specs::Tracks::tracks_on, crate::specs::Tracks::text_on))]
    fn fly(self, a: Airframe, t: Tick, page: &mut Page) -> Track {
        let x = lent_tick::tick_by_reference(a, self.first, t);
        let y = lent_tick::tick_by_reference(a.reflected(), self.second, t.reflected());
        page.put_both(self.ticks.wrapping_add(1), x, y);
        self.after(x, y)
    }

    fn put_end(self, n: usize, page: &mut Page) {
        page.put_end_beside(self, n);
    }

    ghost none = { InParts.none-beside };

    ghost no_lines = { InParts.no_lines-beside };

    ghost more = { InParts.more-beside };

    ghost more_lines = { InParts.more_lines-beside };

    ghost fits = { Prim.omega arith };
}
