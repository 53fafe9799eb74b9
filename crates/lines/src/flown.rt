// A flight alone, tick by tick.
ghost use Rattle.std.specs.Prelude.{◌≡◌};
ghost use Rattle.lines.specs.TickLog.{LeadsAlone, StartsAlone, lines_alone};
ghost use Rattle.std.proofs.Common.{arith};
ghost use Rattle.lines.specs.Text.{end_text};
ghost use Rattle.lines.specs.Page.{line_bytes};
ghost use Rattle.lines.specs.InParts as InParts;

use crate::log::Log;
use crate::page::Page;
use airframe::Airframe;
use flight::{Flight, Tick};

// The state after the ticks flown, and how many they were.
#[derive(Clone, Copy)]
pub struct Flown {
    pub flight: Flight,
    pub index: u64,
}

impl Log for Flown {
    ghost starts = { StartsAlone };

    ghost leads = { LeadsAlone };

    ghost lines = { lines_alone };

    ghost ends = { λ _ n. end_text n };

    ghost room = { line_bytes };

    fn start(f: Flight) -> Flown {
        Flown {
            flight: f,
            index: 0,
        }
    }

    #[tactic(auto, unfolding(crate::specs::TickLog::log_of, crate::specs::TickLog::log_on, crate::specs::TickLog::tick_text))]
    fn fly(self, a: Airframe, t: Tick, page: &mut Page) -> Flown {
        let done = wing::tick(a, self.flight, t);
        let index = self.index.wrapping_add(1);
        page.put_line(index, done.report.answer, done.flight);
        Flown {
            flight: done.flight,
            index,
        }
    }

    fn put_end(self, n: usize, page: &mut Page) {
        page.put_end(n);
    }

    ghost none = { InParts.none-alone };

    ghost no_lines = { InParts.no_lines-alone };

    ghost more = { InParts.more-alone };

    ghost more_lines = { InParts.more_lines-alone };

    ghost fits = { Prim.omega arith };
}
