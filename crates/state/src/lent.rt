// The buffers that are lent to a call as one value, all but the history, which undo and redo only read.
ghost use Rattle.std.specs.Prelude.{◌≡◌};
ghost use Rattle.state.specs.Buffers.{sizes_of};
ghost use Rattle.state.specs.Lent.{held};

use crate::session::Sizes;

// The two sets, the luma table, which is only read, and what is made of them.
#[derive(Drop)]
pub struct LentBuffers<'a> {
    pub backward: &'a mut [u8],
    pub forward: &'a mut [u8],
    pub table: &'a [u8],
    pub grid: &'a mut [i32],
    pub xs: &'a mut [u16],
    pub ys: &'a mut [u16],
    pub averages: &'a mut [u8],
    pub map: &'a mut [u8],
}

impl LentBuffers<'_> {
    // Their lengths, with that of the history.
    pub fn sizes(&self, history: &[u8]) -> Sizes
        ensures { result ≡ sizes_of (held self.now history.now) }
    {
        crate::session::sizes_of(
            self.backward,
            self.forward,
            self.table,
            self.grid,
            self.xs,
            self.ys,
            self.averages,
            self.map,
            history,
        )
    }
}
