// Air density by height (02, 6). The Rust has one density for all heights, in aero.rs.
#![tactic(auto)]

ghost use Rattle.std.specs.Prelude.{◌≡◌, ◌<◌};
ghost use Rattle.air.specs.Promises as Promises;
ghost use Rattle.air.specs.Density as Density;

pub const ROW_COUNT: usize = LAST_ROW + 1;

const LAST_ROW: usize = 60;

// The density at each row's height, in kg/m³.
const TABLE: [f32; ROW_COUNT] = [
    1.3470, // -1000 m
    1.3344, // -900 m
    1.3219, // -800 m
    1.3095, // -700 m
    1.2971, // -600 m
    1.2849, // -500 m
    1.2727, // -400 m
    1.2607, // -300 m
    1.2487, // -200 m
    1.2368, // -100 m
    1.2250, // 0 m
    1.2133, // 100 m
    1.2017, // 200 m
    1.1901, // 300 m
    1.1786, // 400 m
    1.1673, // 500 m
    1.1560, // 600 m
    1.1448, // 700 m
    1.1336, // 800 m
    1.1226, // 900 m
    1.1116, // 1000 m
    1.1008, // 1100 m
    1.0900, // 1200 m
    1.0793, // 1300 m
    1.0686, // 1400 m
    1.0581, // 1500 m
    1.0476, // 1600 m
    1.0372, // 1700 m
    1.0269, // 1800 m
    1.0166, // 1900 m
    1.0065, // 2000 m
    0.9964, // 2100 m
    0.9864, // 2200 m
    0.9765, // 2300 m
    0.9666, // 2400 m
    0.9569, // 2500 m
    0.9472, // 2600 m
    0.9375, // 2700 m
    0.9280, // 2800 m
    0.9185, // 2900 m
    0.9091, // 3000 m
    0.8998, // 3100 m
    0.8905, // 3200 m
    0.8814, // 3300 m
    0.8723, // 3400 m
    0.8632, // 3500 m
    0.8543, // 3600 m
    0.8454, // 3700 m
    0.8366, // 3800 m
    0.8278, // 3900 m
    0.8191, // 4000 m
    0.8105, // 4100 m
    0.8020, // 4200 m
    0.7935, // 4300 m
    0.7851, // 4400 m
    0.7768, // 4500 m
    0.7685, // 4600 m
    0.7603, // 4700 m
    0.7522, // 4800 m
    0.7441, // 4900 m
    0.7361, // 5000 m
];

// The table, of which it is known that it is the atmosphere's. It is made once and lent: naming a const array copies it.
#[derive(Clone, Copy)]
pub struct DensityTable {
    pub table: [f32; ROW_COUNT],
    pub ghost is_atmosphere: { table ≡ Density.densities },
}

// The table made.
pub fn densities() -> DensityTable
    ensures { result.table ≡ Density.densities }
{
    DensityTable { table: TABLE }
}

// The density at a height in m, with the table lent: the end's value at an end of the table and beyond it, NaN for a NaN.
pub fn density_with(height_m: f32, densities: &DensityTable) -> f32
    ensures { result ≡ Density.density_at height_m }
{
    if height_m <= -1000.0 {
        return densities.table[0];
    }
    if height_m >= 5000.0 {
        return densities.table[LAST_ROW];
    }
    if height_m != height_m {
        return height_m;
    }
    within_table(height_m, densities)
}

// The same with a table of its own.
pub fn density(height_m: f32) -> f32
    ensures { result ≡ Density.density_at height_m }
{
    let densities = densities();
    density_with(height_m, &densities)
}

// The height of a row in m.
fn row_height(row: u32) -> f32
    requires { row < Density.row_count }
    ensures { result ≡ Density.height_of row }
{
    (row * 100) as f32 - 1000.0
}

// The density at a height between the table's ends, by the highest row that is not above it. The sum and the quotient are rounded, so
// that the first guess may be one row too high.
fn within_table(height_m: f32, densities: &DensityTable) -> f32
    requires { Promises.Inside height_m }
    ensures { result ≡ Density.between (Density.row_down_from Density.last_row height_m) height_m }
{
    let guess = float::truncated((height_m + 1000.0) / 100.0) as u32;
    let row_m = row_height(guess);
    if height_m < row_m {
        return between(guess - 1, row_m - 100.0, height_m, densities);
    }
    between(guess, row_m, height_m, densities)
}

// Between a row, which is at `row_m`, and the next.
fn between(row: u32, row_m: f32, height_m: f32, densities: &DensityTable) -> f32
    requires row_below_last { row < Density.last_row }
    requires row_height { row_m ≡ Density.height_of row }
    ensures { result ≡ Density.between row height_m }
{
    let at = row as usize;
    let below = densities.table[at];
    below + (densities.table[at + 1] - below) * ((height_m - row_m) / 100.0)
}
