// The airframe block (01, "Blocks"): its header's bits, its numbers by place, its rows, and what reading it gives.
#![tactic(auto)]

ghost use Rattle.std.specs.Prelude.{◌≡◌, ◌+◌, ◌*◌, ◌≤◌, length};
ghost use Rattle.airframe.specs.Numbers as Numbers;
ghost use Rattle.ordered.specs.Ordered.{unless_zero};
ghost use Rattle.mixers.specs.Rows.{most_rows};
ghost use Rattle.block_parts.specs.Parts.{number_bytes};
ghost use Rattle.airframe_block.specs.Block as Block;

use airframe::{Airframe, LIFT_TIME_CONSTANT, MOTOR_TIME_CONSTANT, NUMBERS, Segment};
use answers::{Answer, Refusal};
use mixers::{MOST_ROWS, MixRow, Rows, Slot};

// What reading an airframe block gives: the reply, and the airframe, all zeros where it is refused. No `Result`, which would have no
// airframe of zeros then (specs/Block: `refused_airframe`).
#[derive(Clone, Copy)]
pub struct AirframeRead {
    pub answer: Answer,
    pub airframe: Airframe,
}

// How many bytes the header and a row have.
pub const HEADER_BYTES: usize = 2;

const ROW_BYTES: usize = 13;

// The longest block that a header can announce: its five bits of the row count go up to 31.
pub const MOST_BYTES: usize = HEADER_BYTES + block_parts::NUMBER_BYTES * NUMBERS + ROW_BYTES * 31;

// What the block's two first bytes say.
#[derive(Clone, Copy)]
struct Header {
    version: u8,
    // The falloff's, as its two bits have it: 2 and 3 are refused.
    kind: u8,
    // Whether a wash is present, and whether lift numbers are (02, 5).
    wash: bool,
    lift: bool,
    // The three reserved bits.
    reserved: u8,
    rows: usize,
}

// The header of the bytes a and b, most significant bits first.
fn header_of(a: u8, b: u8) -> Header
    ensures { result ≡ Block.header_of a b }
{
    Header {
        version: a / 16,
        kind: a / 4 % 4,
        wash: a / 2 % 2 == 1,
        lift: a % 2 == 1,
        reserved: b / 32,
        rows: usize::from(b % 32),
    }
}

// How many bytes a segment of the numbers has.
fn segment_bytes(x: Segment) -> usize
    requires { x.count ≤ Numbers.numbers_count }
    ensures value { result ≡ Block.segment_bytes x }
    ensures upper_bound { result ≤ number_bytes * x.count }
{
    if x.present {
        return block_parts::NUMBER_BYTES * x.count;
    }
    0
}

impl Header {
    // Where the rows begin.
    fn rows_at(self) -> usize
        ensures value { result ≡ Block.rows_at self }
        ensures upper_bound { result ≤ Block.header_bytes + number_bytes * Numbers.numbers_count }
    {
        let base = segment_bytes(Segment::base());
        let wash = segment_bytes(Segment::wash(self.wash));
        let lift = segment_bytes(Segment::lift(self.lift));
        HEADER_BYTES + base + wash + lift
    }

    // How many bytes the block has.
    fn bytes(self) -> usize
        requires { self.rows ≤ 31 }
        ensures { result ≡ Block.bytes_of self }
    {
        let start = self.rows_at();
        start + ROW_BYTES * self.rows
    }

    // How many bytes the block has, or why it is refused whatever follows.
    fn announced(self) -> Result<usize, Refusal>
        requires { self.rows ≤ 31 }
        ensures { result ≡ Block.announced_by self }
    {
        if self.version != 1 {
            return Err(Refusal::WrongVersion);
        }
        if self.kind > 1 {
            return Err(Refusal::WrongFalloff);
        }
        if self.reserved != 0 {
            return Err(Refusal::ReservedBit);
        }
        if self.rows > MOST_ROWS {
            return Err(Refusal::TooManyRows);
        }
        Ok(self.bytes())
    }
}

// How many bytes the block has whose first two are a and b, or why it is refused whatever follows.
pub fn announced_of(a: u8, b: u8) -> Result<usize, Refusal>
    ensures { result ≡ Block.announced_of a b }
{
    header_of(a, b).announced()
}

// The numbers of a segment that is there, from byte `at` on, into xs.
fn read_segment(s: &[u8], at: usize, xs: [f32; NUMBERS], x: Segment) -> [f32; NUMBERS]
    requires numbers_within { x.first + x.count ≤ Numbers.numbers_count }
    requires bytes_within { at + Block.segment_bytes x ≤ length s.now }
    ensures { result ≡ Block.put_segment s.now at xs x }
{
    if x.present {
        return read_present(s, at, xs, x.first, x.count);
    }
    xs
}

fn read_present(
    s: &[u8],
    at: usize,
    xs: [f32; NUMBERS],
    first: usize,
    count: usize,
) -> [f32; NUMBERS]
    requires numbers_within { first + count ≤ Numbers.numbers_count }
    requires bytes_within { at + number_bytes * count ≤ length s.now }
    ensures { result ≡ Block.put_numbers s.now at xs first count }
{
    let mut out = xs;
    for k in 0..count {
        out[first + k] = float::read(s, at + block_parts::NUMBER_BYTES * k);
    }
    out
}

// The numbers of the block, segment by segment; those of an absent segment are 0.
fn read_numbers(s: &[u8], h: Header) -> [f32; NUMBERS]
    requires { Block.rows_at h ≤ length s.now }
    ensures { result ≡ Block.numbers_from s.now h }
{
    let base = Segment::base();
    let wash = Segment::wash(h.wash);
    let lift = Segment::lift(h.lift);
    let none = [0.0; NUMBERS];
    let wash_at = HEADER_BYTES + segment_bytes(base);
    let lift_at = wash_at + segment_bytes(wash);
    let numbers = read_segment(s, HEADER_BYTES, none, base);
    let washed = read_segment(s, wash_at, numbers, wash);
    read_segment(s, lift_at, washed, lift)
}

// What a row's first byte drives: a motor's with the bit 08 is a lift rotor's.
fn slot_of(b: u8) -> Slot
    ensures { result ≡ Block.slot_of b }
{
    if b / 128 == 0 {
        if b / 8 % 2 == 0 {
            return Slot::Motor(b / 16 % 8);
        }
        return Slot::Lift(b / 16 % 8);
    }
    Slot::Servo(b / 16 % 8)
}

// The row whose 13 bytes stand at i.
fn read_row(s: &[u8], i: usize) -> MixRow
    requires { i + Block.row_bytes ≤ length s.now }
    ensures { result ≡ Block.row_from s.now i }
{
    let slot = slot_of(s[i]);
    let roll = float::read(s, i + 1);
    let pitch = float::read(s, i + 5);
    let yaw = float::read(s, i + 9);
    MixRow {
        slot,
        roll,
        pitch,
        yaw,
    }
}

// The `count` rows that stand at `start`. `count` is a number of the header that was tested there: a type of its own would only wrap it.
fn read_rows(s: &[u8], start: usize, count: usize) -> Rows
    requires rows_bound { count ≤ most_rows }
    requires bytes_within { start + Block.row_bytes * count ≤ length s.now }
    ensures { result ≡ Block.rows_from s.now start count }
{
    let empty = MixRow {
        slot: Slot::Motor(0),
        roll: 0.0,
        pitch: 0.0,
        yaw: 0.0,
    };
    let mut rows = [empty; MOST_ROWS];
    for (k, row) in rows[..count].iter_mut().enumerate() {
        *row = read_row(s, start + ROW_BYTES * k);
    }
    Rows { rows, count }
}

// Whether a row's first byte has no bit that must be 0: three always must, and 08 on a servo's row and without lift numbers.
fn bits_clear(b: u8, lift: bool) -> bool
    ensures { result ≡ Block.bits_clear lift b }
{
    if b % 8 == 0 {
        if b / 8 % 2 == 0 {
            return true;
        }
        if b / 128 == 0 {
            return lift;
        }
        return false;
    }
    false
}

// The first of the `count` rows at `start` with a bit set that must be 0, counted from 1.
fn reserved_row(s: &[u8], lift: bool, start: usize, count: usize) -> Option<usize>
    requires rows_bound { count ≤ most_rows }
    requires bytes_within { start + Block.row_bytes * count ≤ length s.now }
    ensures { result ≡ unless_zero (Block.reserved_row s.now lift start count) }
{
    for k in 0..count {
        if !bits_clear(s[start + ROW_BYTES * k], lift) {
            return Some(k + 1);
        }
    }
    None
}

// Whether a row's factor is 0 or of size 0.01 to 10.
fn factor_fits(x: f32) -> bool
    ensures { result ≡ Block.factor_fits x }
{
    if x == 0.0 {
        return true;
    }
    float::inside(float::abs(x), 0.01, 10.0)
}

fn row_fits(row: MixRow) -> bool
    ensures { result ≡ Block.row_fits row }
{
    if factor_fits(row.roll) {
        if factor_fits(row.pitch) {
            return factor_fits(row.yaw);
        }
        return false;
    }
    false
}

// The first row with a bad factor, counted from 1.
fn bad_row(rows: Rows) -> Option<usize>
    ensures { result ≡ unless_zero (Block.bad_row rows) }
{
    for (k, row) in rows.rows[..rows.live()].iter().enumerate() {
        if !row_fits(*row) {
            return Some(k + 1);
        }
    }
    None
}

// The airframe of the numbers, the header and the rows.
fn airframe_by(xs: [f32; NUMBERS], h: Header, rows: Rows) -> Airframe
    ensures { result ≡ Block.airframe_by xs h rows }
{
    let mix = lent_rows::fill_from_rows(
        rows,
        airframe::motor_layout_of(xs),
        xs[MOTOR_TIME_CONSTANT],
        airframe::lift_layout_of(xs),
        xs[LIFT_TIME_CONSTANT],
    );
    let motors = mix.motors;
    let rotors = mix.lift;
    let surfaces = mix.surfaces();
    let weights = surfaces.weights;
    Airframe::from_numbers(xs, h.kind, h.wash, h.lift, motors, weights, rotors)
}

// A refused block: the reply, and an airframe of zeros.
fn refused(refusal: Refusal) -> AirframeRead
    ensures { result ≡ Block.refused_airframe refusal }
{
    AirframeRead {
        answer: Err(refusal),
        airframe: Airframe::zero(),
    }
}

// The airframe, refused where a number is out of range.
fn tested(airframe: Airframe, rows: Rows) -> AirframeRead
    ensures { result ≡ Block.tested_block airframe rows }
{
    match airframe.lowest_place(bad_row(rows).is_none()) {
        Some(place) => refused(Refusal::NumberOutOfRange(place)),
        None => AirframeRead {
            answer: Ok(()),
            airframe,
        },
    }
}

// The block of header `h`, whose length is right: reserved bits of the rows, then the numbers.
fn read_body(s: &[u8], h: Header) -> AirframeRead
    requires rows_bound { h.rows ≤ most_rows }
    requires bytes_within { Block.bytes_of h ≤ length s.now }
    ensures { result ≡ Block.read_body s.now h }
{
    let start = h.rows_at();
    let count = h.rows;
    if reserved_row(s, h.lift, start, count).is_some() {
        return refused(Refusal::ReservedBit);
    }
    let rows = read_rows(s, start, count);
    let xs = read_numbers(s, h);
    tested(airframe_by(xs, h, rows), rows)
}

// The airframe block `s`.
pub fn read_airframe(s: &[u8]) -> AirframeRead
    ensures { result ≡ Block.read_airframe_of s.now }
{
    let n = s.len();
    if n < HEADER_BYTES {
        return refused(Refusal::WrongLength);
    }
    let h = header_of(s[0], s[1]);
    match h.announced() {
        Err(refusal) => refused(refusal),
        Ok(to) => {
            if n != to {
                return refused(Refusal::WrongLength);
            }
            read_body(s, h)
        }
    }
}
