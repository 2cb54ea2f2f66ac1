// The level of a sad: that of a small one from a table, that of another worked out.
ghost use Rattle.std.specs.Prelude.{◌≡◌, ◌≤◌, ◌<◌, length};
ghost use Rattle.levels.specs.Level.{sad_level};
ghost use Rattle.masks.specs.Sad.Laws.{SadTable};

use levels::MaskSettings;

// The most sads whose levels are looked up.
pub const SMALL: usize = 512;

// The table holds the levels of the sads from 0 on, as many as it is long.
#[derive(Clone, Copy)]
pub struct SadLevels<'a> {
    pub settings: MaskSettings,
    pub area: u32,
    pub table: &'a [u8],
    ghost filled: { SadTable settings.sad area (length table.now) table.now },
}

impl SadLevels<'_> {
    // The level of a sad: from the table, or worked out.
    pub fn level(&self, sad: u32) -> u8
        requires { sad < 16777216 }
        ensures { result ≡ sad_level self.now.settings.sad self.now.area sad }
    {
        match self.table.get(sad as usize) {
            Some(level) => *level,
            None => levels::sad_level(self.settings, self.area, sad),
        }
    }
}

// Fills in levels of sads from 0 on, to the first of 255 or to 512 of them, and answers how many. A larger sad is quick to work out: its level is mostly
// 255 too, and no byte depends on how many are looked up.
pub fn fill(settings: MaskSettings, area: u32, table: &mut [u8]) -> usize
    requires { 512 ≤ length table.old }
    ensures most { result ≤ 512 }
    ensures filled { SadTable settings.sad area result table.new }
{
    for k in 0..SMALL {
        let level = levels::sad_level(settings, area, k as u32);
        table[k] = level;
        if level == 255 {
            return k + 1;
        }
    }
    SMALL
}
