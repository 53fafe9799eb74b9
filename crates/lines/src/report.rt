// What is said at the end.
ghost use Rattle.std.specs.Prelude.{◌≡◌, ◌+◌, ◌*◌, ◌≤◌, ◌++◌, length};
ghost use Rattle.lines.specs.Page.{line_bytes, page_bytes};
ghost use Rattle.lines.specs.Summary.{counts_text, end_beside, summary_text, verdict_text};
ghost use Rattle.lines.specs.Text.{decimal_text};
ghost use Rattle.lines.specs.Tracks.{tracks_of};

use crate::opening::TICKS_BYTES;
use crate::page::Page;
use crate::track::Track;
use crate::verdict;
use crate::verdict::Verdict;

impl Page {
    // Puts n and what was counted.
    fn put_count(&mut self, n: u64, what: &[u8])
        requires { length self.old + 20 + length what.now ≤ page_bytes }
        ensures page { self.new ≡ self.old ++ decimal_text n ++ what.now }
        ensures within { length self.new ≤ length self.old + 20 + length what.now }
    {
        self.put_decimal(n);
        self.put_text(what);
    }

    // Puts how many ticks there were, and how many each flight accepted.
    #[tactic(auto, unfolding(crate::specs::Summary::counts_text))]
    fn put_counts(&mut self, p: Track)
        requires { length self.old + 200 ≤ page_bytes }
        ensures page { self.new ≡ self.old ++ counts_text (tracks_of p) }
        ensures within { length self.new ≤ length self.old + 200 }
    {
        self.put_count(p.ticks, b" ticks, ");
        self.put_count(p.accepted, b" accepted, ");
        self.put_count(p.accepted_mirrored, b" accepted in the reflection");
        self.put_byte(b'\n');
    }

    // Puts the verdict in words.
    #[tactic(auto, unfolding(crate::specs::Summary::verdict_text))]
    fn put_verdict(&mut self, v: Verdict)
        requires { length self.old + 200 ≤ page_bytes }
        ensures page { self.new ≡ self.old ++ verdict_text v }
        ensures within { length self.new ≤ length self.old + 200 }
    {
        match v {
            Verdict::NoneAccepted => self.put_text(b"no tick was accepted: nothing to compare"),
            Verdict::Mirror => self.put_text(b"this flight and its own reflection mirror"),
            Verdict::MirrorSoFar => self.put_text(
                b"the whole ticks of this flight and its own reflection mirror",
            ),
            Verdict::DifferFrom(tick) => {
                self.put_text(b"this flight and its own reflection do not mirror from tick ");
                self.put_count(tick, b" on");
            }
        }
    }

    // Puts the counts and the verdict; `cut` says whether the last tick is cut short.
    #[tactic(auto, unfolding(crate::specs::Summary::summary_text))]
    fn put_summary(&mut self, p: Track, cut: bool)
        requires { length self.old + 500 ≤ page_bytes }
        ensures { self.new ≡ self.old ++ summary_text (tracks_of p) cut }
    {
        self.put_counts(p);
        self.put_verdict(verdict::verdict_of(p.accepted, p.differs, cut));
        if cut {
            self.put_text(b"; the last tick is cut short");
        }
        self.put_byte(b'\n');
    }

    // Puts what follows the lines of the last n bytes read: where the input ends there, the refusal of a cut tick and the summary.
    #[tactic(auto, unfolding(crate::specs::Summary::end_beside))]
    pub fn put_end_beside(&mut self, p: Track, n: usize)
        requires { length self.old ≤ 200 * (2 * line_bytes) }
        ensures { self.new ≡ self.old ++ end_beside p n }
    {
        self.put_end(n);
        if n != TICKS_BYTES {
            self.put_summary(p, n % trace::TICK_BYTES != 0);
        }
    }
}
