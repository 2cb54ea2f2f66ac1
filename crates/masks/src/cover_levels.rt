// The level of what is covered of a cell, mostly from a table of the levels of 0 to the area of a block.
ghost use Rattle.std.specs.Prelude.{◌≡◌, ◌≤◌, ◌<◌, length};
ghost use Rattle.arith.specs.Integers.{up, dn};
ghost use Rattle.levels.specs.Level.{cover_level};
ghost use Rattle.masks.specs.Cover.Laws.{CoverTable};

use levels::MaskSettings;

// Room for the levels of 0 to area.
pub const LEVELS: usize = 65537;

#[derive(Clone, Copy)]
pub struct CoverLevels<'a> {
    pub settings: MaskSettings,
    pub area: u32,
    pub table: &'a [u8],
    ghost area_range: { (1 ≤ area) × (area ≤ 65536) },
    ghost table_room: { area < length table.now },
    ghost filled: { CoverTable settings.cover area table.now },
}

impl CoverLevels<'_> {
    // The level of `covered`: from the table, or worked out where it is negative.
    pub fn level(&self, covered: i32) -> u8
        requires { (up covered ≤ self.now.area) × (dn covered ≤ 268435456) }
        ensures { result ≡ cover_level self.now.settings.cover self.now.area covered }
    {
        if covered < 0 {
            return levels::cover_level(self.settings, self.area, covered);
        }
        self.table[covered as usize]
    }
}

// Fills in the levels of 0 to area covered.
pub fn fill(settings: MaskSettings, area: u32, table: &mut [u8])
    requires area_range { (1 ≤ area) × (area ≤ 65536) }
    requires table_room { area < length table.old }
    ensures { CoverTable settings.cover area table.new }
{
    for k in 0..=area {
        table[k as usize] = levels::cover_level(settings, area, k as i32);
    }
}
