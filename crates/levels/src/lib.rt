// The mask settings with their ranges, and the level byte of each mask: the stated f64 operations, then a floor found by comparisons over 1 to 255
// (paper 01, 'Masks and class').
#![tactic(auto)]

ghost use Rattle.std.specs.Prelude.{◌≡◌, ◌+◌, ◌≤◌, ◌<◌};
ghost use Rattle.arith.specs.Integers.{up, dn};
ghost use Rattle.levels.specs.Level.{cover_accepted, sad_scale_accepted, cover_scale, level_of, cover_level, sad_level};

// The mask settings: two scales, passed by value to both masks.
#[derive(Clone, Copy)]
pub struct MaskSettings {
    pub cover: f64,
    pub sad: f64,
}

// Whether a whole cover is in its range.
pub fn cover_accepted(cover: i32) -> bool
    ensures { result ≡ cover_accepted cover }
{
    arith::in_range(0, 1000, cover)
}

// Whether a SAD scale is in its range: no comparison holds of a NaN.
pub fn sad_scale_accepted(scale: f64) -> bool
    ensures { result ≡ sad_scale_accepted scale }
{
    0.0 <= scale && scale <= 65536.0
}

// The settings of a whole cover and a SAD scale.
pub fn settings(cover: i32, sad: f64) -> MaskSettings
    ensures { (result.cover ≡ cover_scale cover) × (result.sad ≡ sad) }
{
    MaskSettings {
        cover: cover as f64 / 100.0,
        sad,
    }
}

// One halving of the search: the level is from low on, below low + 2 × half, and comes to be below the answer + half.
fn halve(value: f64, low: u16, half: u16) -> u16
    requires { (0 < half) × (low + half ≤ 255) × (low ≤ level_of value) × (level_of value < low + (half + half)) }
    ensures { (result ≤ level_of value) × (level_of value < result + half) × (result ≤ low + half) }
{
    if (low + half) as f64 <= value {
        low + half
    } else {
        low
    }
}

// The floor of a value, at most 255: the cap first, then a search of eight halvings.
pub fn level(value: f64) -> u8
    ensures { result ≡ level_of value }
{
    let most = 255u16;
    if most as f64 <= value {
        return 255;
    }
    let a = halve(value, 0, 128);
    let b = halve(value, a, 64);
    let c = halve(value, b, 32);
    let d = halve(value, c, 16);
    let e = halve(value, d, 8);
    let f = halve(value, e, 4);
    let g = halve(value, f, 2);
    let h = halve(value, g, 1);
    h as u8
}

// The level of `covered` of an area. It is no less than -2^28: the least i32, by 8.
pub fn cover_level(settings: MaskSettings, area: u32, covered: i32) -> u8
    requires { (1 ≤ area) × (area ≤ 65536) × (up covered ≤ area) × (dn covered ≤ 268435456) }
    ensures { result ≡ cover_level settings.cover area covered }
{
    let whole = area as i32;
    let left = whole - covered;
    level(left as f64 * settings.cover * 256.0 / area as f64)
}

// The level of a sad over an area.
pub fn sad_level(settings: MaskSettings, area: u32, sad: u32) -> u8
    requires { sad < 16777216 }
    ensures { result ≡ sad_level settings.sad area sad }
{
    level((4 * sad) as f64 * settings.sad / area as f64 * 255.0)
}
