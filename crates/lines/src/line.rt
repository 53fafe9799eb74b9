// A tick's line: index, answer, and the 13 numbers of the state's body.
ghost use Rattle.std.specs.Prelude.{◌≡◌, ◌+◌, ◌≤◌, ◌++◌, length};
ghost use Rattle.lines.specs.Text.{attitude_text, body_text, line_text, mirrored_text, rest_text, vec_text};
ghost use Rattle.lines.specs.Page.{line_bytes, page_bytes};

use crate::page::Page;
use answers::Answer;
use body::Body;
use flight::Flight;
use vector::{Quaternion, Vec3};

impl Page {
    #[tactic(auto, unfolding(crate::specs::Text::vec_text))]
    fn put_vec(&mut self, v: Vec3)
        requires { length self.old + 27 ≤ page_bytes }
        ensures page { self.new ≡ self.old ++ vec_text v }
        ensures within { length self.new ≤ length self.old + 27 }
    {
        self.put_word(v.x);
        self.put_word(v.y);
        self.put_word(v.z);
    }

    #[tactic(auto, unfolding(crate::specs::Text::attitude_text))]
    fn put_attitude(&mut self, q: Quaternion)
        requires { length self.old + 36 ≤ page_bytes }
        ensures page { self.new ≡ self.old ++ attitude_text q }
        ensures within { length self.new ≤ length self.old + 36 }
    {
        self.put_word(q.w);
        self.put_word(q.i);
        self.put_word(q.j);
        self.put_word(q.k);
    }

    // Puts the body's position, velocity, attitude and rates.
    #[tactic(auto, unfolding(crate::specs::Text::body_text))]
    fn put_body(&mut self, b: Body)
        requires { length self.old + 117 ≤ page_bytes }
        ensures page { self.new ≡ self.old ++ body_text b }
        ensures within { length self.new ≤ length self.old + 117 }
    {
        self.put_vec(b.position_ned_m);
        self.put_vec(b.velocity_ned_mps);
        self.put_attitude(b.attitude);
        self.put_vec(b.angular_velocity_radps);
    }

    // Puts what follows a line's index.
    #[tactic(auto, unfolding(crate::specs::Text::rest_text))]
    fn put_rest(&mut self, answer: Answer, f: Flight)
        requires { length self.old + 139 ≤ page_bytes }
        ensures page { self.new ≡ self.old ++ rest_text answer f }
        ensures within { length self.new ≤ length self.old + 139 }
    {
        self.put_byte(b' ');
        self.put_decimal(u64::from(answers::number(answer)));
        self.put_body(f.body());
        self.put_byte(b'\n');
    }

    // Puts the line of the tick `index`, its answer and the state handed back.
    #[tactic(auto, unfolding(crate::specs::Text::line_text))]
    pub fn put_line(&mut self, index: u64, answer: Answer, f: Flight)
        requires { length self.old + line_bytes ≤ page_bytes }
        ensures page { self.new ≡ self.old ++ line_text index answer f }
        ensures within { length self.new ≤ length self.old + line_bytes }
    {
        self.put_decimal(index);
        self.put_rest(answer, f);
    }

    // The same with a mark behind the index, for the flight's reflection.
    #[tactic(auto, unfolding(crate::specs::Text::mirrored_text))]
    pub fn put_mirrored_line(&mut self, index: u64, answer: Answer, f: Flight)
        requires { length self.old + line_bytes ≤ page_bytes }
        ensures page { self.new ≡ self.old ++ mirrored_text index answer f }
        ensures within { length self.new ≤ length self.old + line_bytes }
    {
        self.put_decimal(index);
        self.put_byte(b'\'');
        self.put_rest(answer, f);
    }
}
